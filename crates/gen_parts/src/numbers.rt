ghost use Rattle.std.specs.Prelude.{◌≡◌, pos};
ghost use Rattle.std.specs.Int.{w32, int_wrap};

/// The int of a number as it is written.
pub(crate) fn int_of(value: u32) -> i32
    ensures { result ≡ int_wrap w32 (pos value) }
{
    value.cast_signed()
}
