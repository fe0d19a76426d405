//! Numbers as programs write them.

ghost use Rattle.std.specs.Prelude.{◌≡◌, ◌≤◌, ◌↔◌, IsTrue};
ghost use Rattle.print_form.specs.Form.{most, value_of};

/// A whole number as a program writes it: with a minus or without, in hexadecimal digits or in decimal ones, and the
/// value of the digits.
#[derive(Clone, Copy, Debug, PartialEq, Eq)]
pub struct Literal {
    pub negative: bool,
    pub hex: bool,
    pub size: u32,
}

impl Literal {
    /// The number of 32 bits that it means.
    pub fn value(self) -> i32
        ensures { result ≡ value_of self }
    {
        let size = self.size.cast_signed();
        if self.negative {
            size.wrapping_neg()
        } else {
            size
        }
    }

    /// Whether the language has such a number: in decimal digits 2147483648 stands behind a minus alone.
    pub(crate) fn fits(self) -> bool
        ensures { IsTrue result ↔ self.size ≤ most self }
    {
        let most = if self.hex {
            4294967295
        } else if self.negative {
            2147483648
        } else {
            2147483647
        };
        self.size <= most
    }
}
