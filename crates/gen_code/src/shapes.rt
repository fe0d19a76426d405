ghost use Rattle.std.specs.Prelude.{◌≡◌};
ghost use Rattle.gen_code.specs.Emitted.{shape_of};

use crate::names::kind_of_type;
use jp_meaning::{TypedExpr, TypedKind};

/// Whether an expression leaves nothing on the stack: a call without a result, or a print.
#[tactic(auto, unfolding(crate::specs::Emitted::shape_of))]
pub fn is_void(e: &TypedExpr) -> bool
    ensures { result ≡ (shape_of e.now).void }
{
    match &e.kind {
        TypedKind::CallVirtual { .. }
        | TypedKind::CallStatic { .. }
        | TypedKind::CallSuper { .. } => kind_of_type(&e.ty).is_none(),
        TypedKind::Print(_) | TypedKind::Show(_) => true,
        TypedKind::Number { .. }
        | TypedKind::Truth(_)
        | TypedKind::Null
        | TypedKind::This
        | TypedKind::Local(_)
        | TypedKind::Unary { .. }
        | TypedKind::Binary { .. }
        | TypedKind::Cond { .. }
        | TypedKind::Cast { .. }
        | TypedKind::InstanceOf { .. }
        | TypedKind::Field { .. }
        | TypedKind::Static { .. }
        | TypedKind::Length(_)
        | TypedKind::Index { .. }
        | TypedKind::New { .. }
        | TypedKind::NewArray { .. }
        | TypedKind::Read => false,
    }
}

/// Whether an expression has an operator.
#[tactic(auto, unfolding(crate::specs::Emitted::shape_of))]
pub fn has_operator(e: &TypedExpr) -> bool
    ensures { result ≡ (shape_of e.now).operates }
{
    match &e.kind {
        TypedKind::Unary { .. } | TypedKind::Binary { .. } => true,
        TypedKind::Number { .. }
        | TypedKind::Truth(_)
        | TypedKind::Null
        | TypedKind::This
        | TypedKind::Local(_)
        | TypedKind::Cond { .. }
        | TypedKind::Cast { .. }
        | TypedKind::InstanceOf { .. }
        | TypedKind::Field { .. }
        | TypedKind::Static { .. }
        | TypedKind::Length(_)
        | TypedKind::Index { .. }
        | TypedKind::CallVirtual { .. }
        | TypedKind::CallStatic { .. }
        | TypedKind::CallSuper { .. }
        | TypedKind::New { .. }
        | TypedKind::NewArray { .. }
        | TypedKind::Print(_)
        | TypedKind::Show(_)
        | TypedKind::Read => false,
    }
}
