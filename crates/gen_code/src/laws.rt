ghost use Rattle.gen_code.specs.Emitted.{CodeHasItsShape};

/// The code of an expression is of the shape that `is_void`, `has_operator` and `parts_of` tell.
pub fn code_has_its_shape()
    ensures { CodeHasItsShape }
{}
