ghost use Rattle.std.specs.Prelude.{◌≡◌, IfOk};
ghost use Rattle.type_rules.specs.Expressions.{value, variable, this_at};

use jp_ast::Place;
use jp_meaning::{TypedExpr, TypedKind};
use jp_pred::Ty;
use sqlite_items::Boxed;
use std::alloc::{AllocError, Global};
use type_rules::{Known, Scope, Seen};

/// A value of a type.
pub(crate) fn value(
    alloc: Global,
    place: Place,
    ty: Ty,
    kind: TypedKind,
) -> Result<Seen, AllocError>
    ensures { IfOk result (λ seen. seen ≡ value place ty kind) }
{
    Ok(Seen::Value(Known {
        is_null: false,
        is_variable: false,
        expr: Boxed::new(alloc, TypedExpr { place, ty, kind })?,
    }))
}

/// The value of a local, parameter, alias, field or element.
pub(crate) fn variable(
    alloc: Global,
    place: Place,
    ty: Ty,
    kind: TypedKind,
) -> Result<Seen, AllocError>
    ensures { IfOk result (λ seen. seen ≡ variable place ty kind) }
{
    Ok(Seen::Value(Known {
        is_null: false,
        is_variable: true,
        expr: Boxed::new(alloc, TypedExpr { place, ty, kind })?,
    }))
}

/// `this`
pub(crate) fn this(
    alloc: Global,
    scope: &Scope,
    place: Place,
) -> Result<Boxed<TypedExpr>, AllocError>
    ensures { IfOk result (λ this. this ≡ this_at scope.now place) }
{
    let ty = Ty::Class(scope.class.copy(alloc)?);
    let kind = TypedKind::This;
    Boxed::new(alloc, TypedExpr { place, ty, kind })
}
