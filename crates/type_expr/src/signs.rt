ghost use Rattle.std.specs.Prelude.{◌≡◌, IfOk};
ghost use Rattle.type_rules.specs.Signs.{is_one_of, group_of, result_of};
ghost use Rattle.type_expr.specs.Groups.{as_group};

use jp_ast::sign;
use jp_pred::Ty;
use std::alloc::{AllocError, Global};
use type_heads::{copy_ty, is_unknown};

/// The groups of signs between two operands.
#[derive(Clone, Copy, Debug, PartialEq, Eq)]
pub(crate) enum Group {
    /// `+ - * / % << >> >>>`
    Arithmetic,
    /// `< > <= >=`
    Order,
    /// `& | ^`
    Bits,
    /// `&& ||`
    Logic,
    /// `== !=`
    Equality,
}

pub(crate) fn group_of(sign: u8) -> Group
    ensures { as_group result ≡ group_of sign }
{
    let order = [sign::LESS, sign::GREATER, sign::AT_MOST, sign::AT_LEAST];
    let bits = [sign::BIT_AND, sign::BIT_OR, sign::BIT_XOR];
    if is_one_of(&order, sign) {
        Group::Order
    } else if is_one_of(&bits, sign) {
        Group::Bits
    } else if is_one_of(&[sign::AND, sign::OR], sign) {
        Group::Logic
    } else if is_one_of(&[sign::EQUAL, sign::NOT_EQUAL], sign) {
        Group::Equality
    } else {
        Group::Arithmetic
    }
}

fn is_one_of(signs: &[u8], sign: u8) -> bool
    ensures { result ≡ is_one_of signs.now sign }
{
    signs.contains(&sign)
}

/// The type of what the sign gives, by those of its operands.
pub(crate) fn result_of(alloc: Global, sign: u8, left: &Ty, right: &Ty) -> Result<Ty, AllocError>
    ensures { IfOk result (λ ty. ty ≡ result_of (group_of sign) left.now right.now) }
{
    match group_of(sign) {
        Group::Arithmetic => Ok(Ty::Int),
        Group::Order | Group::Logic | Group::Equality => Ok(Ty::Boolean),
        Group::Bits => {
            if is_unknown(right) {
                Ok(Ty::Void)
            } else {
                copy_ty(alloc, left)
            }
        }
    }
}
