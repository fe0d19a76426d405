ghost use Rattle.std.specs.Prelude.{◌≡◌};
ghost use Rattle.std.specs.Option.{option_map};
ghost use Rattle.gen_code.specs.Emitted.{prefix_as, infix_as, literal_as};
ghost use Rattle.gen_parts.specs.Emits.{judges, judges_prefix, judges_infix, is_alone, jump_alone, first_goes};

use gen_code::{Infix, Literal, Prefix, infix_of, jump_by_null, jump_by_zero, prefix_of};
use jp_meaning::{TypedExpr, TypedKind};
use jp_store::Test;
use jvm_table::Jump;

/// Whether an expression is a condition with an operator: `!`, a comparison, `&&` or `||`.
#[tactic(auto, unfolding(crate::specs::Emits::judges))]
pub fn is_condition(e: &TypedExpr) -> bool
    ensures { result ≡ judges e.now }
{
    match &e.kind {
        TypedKind::Unary { sign, right: _ } => is_not(prefix_of(*sign)),
        TypedKind::Binary {
            sign,
            left: _,
            right: _,
        } => is_test(infix_of(*sign)),
        TypedKind::Number { .. }
        | TypedKind::Truth(_)
        | TypedKind::Null
        | TypedKind::This
        | TypedKind::Local(_)
        | TypedKind::Cond { .. }
        | TypedKind::Cast { .. }
        | TypedKind::InstanceOf { .. }
        | TypedKind::Field { .. }
        | TypedKind::Static { .. }
        | TypedKind::Length(_)
        | TypedKind::Index { .. }
        | TypedKind::CallVirtual { .. }
        | TypedKind::CallStatic { .. }
        | TypedKind::CallSuper { .. }
        | TypedKind::New { .. }
        | TypedKind::NewArray { .. }
        | TypedKind::Print(_)
        | TypedKind::Show(_)
        | TypedKind::Read => false,
    }
}

fn is_not(sign: Option<Prefix>) -> bool
    ensures { result ≡ judges_prefix (option_map prefix_as sign) }
{
    match sign {
        None => false,
        Some(Prefix::Plus) => false,
        Some(Prefix::Minus) => false,
        Some(Prefix::Not) => true,
        Some(Prefix::Complement) => false,
    }
}

fn is_test(sign: Option<Infix>) -> bool
    ensures { result ≡ judges_infix (option_map infix_as sign) }
{
    match sign {
        None => false,
        Some(Infix::Operates(_)) => false,
        Some(Infix::Compares(_)) => true,
        Some(Infix::AndThen) => true,
        Some(Infix::OrElse) => true,
    }
}

/// Whether a comparison of references or of ints, whose second operand is known to be this, is one with 0 or `null`.
pub fn is_alone(references: bool, literal: Literal) -> bool
    ensures { result ≡ is_alone references (literal_as literal) }
{
    match (references, literal) {
        (false, Literal::Zero) => true,
        (true, Literal::Nil) => true,
        (true, Literal::Zero) => false,
        (true, Literal::Anything) => false,
        (false, Literal::Nil) => false,
        (false, Literal::Anything) => false,
    }
}

/// The jump of a comparison with 0, or of a reference with `null`.
pub fn jump_alone(references: bool, test: Test, want: bool) -> Jump
    ensures { result ≡ jump_alone references test want }
{
    if references {
        jump_by_null(test, want)
    } else {
        jump_by_zero(test, want)
    }
}

/// Where the first of two tests goes if it is as decides both: to where both go if that is wanted, and else over the second.
pub fn first_goes(decides: bool, want: bool, to: usize, skip: usize) -> usize
    ensures { result ≡ first_goes decides want to skip }
{
    match (decides, want) {
        (true, true) => to,
        (false, false) => to,
        (true, false) => skip,
        (false, true) => skip,
    }
}
