ghost use Rattle.std.specs.Prelude.{◌≡◌};
ghost use Rattle.std.specs.Option.{option_map};
ghost use Rattle.jp_meaning.specs.Signs.{prefix_of, infix_of, change_of};
ghost use Rattle.gen_code.specs.Emitted.{prefix_as, infix_as, change_as};

use jp_store::{BinaryOp, Test};

/// An operator in front of its operand.
#[derive(Clone, Copy)]
pub enum Prefix {
    Plus,
    Minus,
    Not,
    Complement,
}

/// An operator between its operands: one with a value, a comparison, or `&&` and `||`.
#[derive(Clone, Copy)]
pub enum Infix {
    Operates(BinaryOp),
    Compares(Test),
    AndThen,
    OrElse,
}

/// How `=`, `+=` or `-=` changes a variable.
#[derive(Clone, Copy)]
pub enum Change {
    Becomes,
    Changes(BinaryOp),
}

/// `! ~ + -`, by their numbers.
pub fn prefix_of(sign: u8) -> Option<Prefix>
    ensures { option_map prefix_as result ≡ prefix_of sign }
{
    match sign {
        12 => Some(Prefix::Not),
        13 => Some(Prefix::Complement),
        16 => Some(Prefix::Plus),
        17 => Some(Prefix::Minus),
        _ => None,
    }
}

/// The signs between operands, by their numbers.
pub fn infix_of(sign: u8) -> Option<Infix>
    ensures { option_map infix_as result ≡ infix_of sign }
{
    match sign {
        10 => Some(Infix::Compares(Test::Less)),
        11 => Some(Infix::Compares(Test::Greater)),
        16 => Some(Infix::Operates(BinaryOp::Add)),
        17 => Some(Infix::Operates(BinaryOp::Subtract)),
        18 => Some(Infix::Operates(BinaryOp::Multiply)),
        19 => Some(Infix::Operates(BinaryOp::Divide)),
        20 => Some(Infix::Operates(BinaryOp::Remainder)),
        21 => Some(Infix::Operates(BinaryOp::And)),
        22 => Some(Infix::Operates(BinaryOp::Or)),
        23 => Some(Infix::Operates(BinaryOp::Xor)),
        25 => Some(Infix::Compares(Test::Equal)),
        26 => Some(Infix::Compares(Test::NotEqual)),
        27 => Some(Infix::Compares(Test::LessOrEqual)),
        28 => Some(Infix::Compares(Test::GreaterOrEqual)),
        29 => Some(Infix::AndThen),
        30 => Some(Infix::OrElse),
        31 => Some(Infix::Operates(BinaryOp::ShiftLeft)),
        32 => Some(Infix::Operates(BinaryOp::ShiftRight)),
        33 => Some(Infix::Operates(BinaryOp::ShiftRightUnsigned)),
        _ => None,
    }
}

/// `= += -=`, by their numbers.
pub fn change_of(sign: u8) -> Option<Change>
    ensures { option_map change_as result ≡ change_of sign }
{
    match sign {
        9 => Some(Change::Becomes),
        34 => Some(Change::Changes(BinaryOp::Add)),
        35 => Some(Change::Changes(BinaryOp::Subtract)),
        _ => None,
    }
}
