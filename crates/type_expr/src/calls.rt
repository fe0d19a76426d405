ghost use Rattle.std.specs.Prelude.{◌≡◌, IfOk};
ghost use Rattle.type_rules.specs.Expressions.{static_call, virtual_call, own_call};
ghost use Rattle.type_expr.specs.Resolving.{io_value};

use crate::values::{this, value};
use iface_codec::IfaceMethod;
use jp_ast::Place;
use jp_meaning::{TypedExpr, TypedKind};
use jp_pred::{Name, Ty};
use sqlite_items::{Boxed, Items};
use std::alloc::{AllocError, Global};
use type_heads::{copy_ty, copy_types, is_io, is_static, names_interface};
use type_rules::{Scope, Seen};

/// A call of a method of the scope's class without anything before it.
pub(crate) fn own_call(
    alloc: Global,
    scope: &Scope,
    place: Place,
    class: &Name,
    method: &IfaceMethod,
    args: Items<TypedExpr>,
) -> Result<Seen, AllocError>
    ensures { IfOk result (λ seen. seen ≡ own_call scope.now place (class.now, method.now) args) }
{
    if is_static(method.kind) {
        return static_call(alloc, place, class, method, args);
    }
    let object = this(alloc, scope, place)?;
    let class = scope.class.copy(alloc)?;
    virtual_call(alloc, scope, place, object, class, method, args)
}

/// A call of a static method of a class that declares it.
pub(crate) fn static_call(
    alloc: Global,
    place: Place,
    class: &Name,
    method: &IfaceMethod,
    args: Items<TypedExpr>,
) -> Result<Seen, AllocError>
    ensures { IfOk result (λ seen. seen ≡ static_call place class.now method.now args) }
{
    if is_io(class) {
        return io_call(alloc, place, args);
    }
    let kind = TypedKind::CallStatic {
        class: class.copy(alloc)?,
        name: method.name.copy(alloc)?,
        params: copy_types(alloc, method.params.as_slice())?,
        args,
    };
    value(alloc, place, copy_ty(alloc, &method.result)?, kind)
}

/// A call of `Io.read()` or `Io.print(..)`.
fn io_call(alloc: Global, place: Place, args: Items<TypedExpr>) -> Result<Seen, AllocError>
    ensures { IfOk result (λ seen. seen ≡ io_value place args) }
{
    if args.is_empty() {
        return value(alloc, place, Ty::Int, TypedKind::Read);
    }
    let mut args = args;
    let shown = Boxed::new(alloc, args.remove(0))?;
    value(alloc, place, Ty::Void, TypedKind::Print(shown))
}

/// A call of a family on an object of a class.
pub(crate) fn virtual_call(
    alloc: Global,
    scope: &Scope,
    place: Place,
    object: Boxed<TypedExpr>,
    class: Name,
    method: &IfaceMethod,
    args: Items<TypedExpr>,
) -> Result<Seen, AllocError>
    ensures { IfOk result (λ seen. seen ≡ virtual_call scope.now place object class method.now args) }
{
    let is_interface = names_interface(scope.heads.as_slice(), &class);
    let kind = TypedKind::CallVirtual {
        object,
        class,
        is_interface,
        name: method.name.copy(alloc)?,
        params: copy_types(alloc, method.params.as_slice())?,
        args,
    };
    value(alloc, place, copy_ty(alloc, &method.result)?, kind)
}
