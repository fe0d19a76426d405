ghost use Rattle.std.specs.Prelude.{◌≡◌, ◌∷◌, Some, IfOk};
ghost use Rattle.std.specs.Option.{option_copied};
ghost use Rattle.jp_meaning.specs.Classes.{is_static};
ghost use Rattle.type_rules.specs.Heads.{head_of};
ghost use Rattle.type_heads.specs.Members.{own_method, method_at};
ghost use Rattle.type_heads.specs.Supertypes.{classes_at};
ghost use Rattle.type_rules.specs.Lookups.{superclasses, is_seen, is_called, method_among, method_of, constructor_of};

use crate::fields::super_head;
use crate::heads::head_of;
use crate::hierarchy::{interfaces_above, line_of};
use iface_codec::{Iface, IfaceMethod, MethodKind};
use jp_pred::{Name, Ty};
use std::alloc::{AllocError, Global};

pub fn is_static(kind: MethodKind) -> bool
    ensures { result ≡ is_static kind }
{
    matches!(kind, MethodKind::Static | MethodKind::PrivateStatic)
}

/// Whether code of the class `own` sees a method of that kind that `class` declares.
fn is_seen(own: &Name, class: &Name, kind: MethodKind) -> bool
    ensures { result ≡ is_seen own.now class.now kind }
{
    match kind {
        MethodKind::PrivateStatic => class == own,
        _ => true,
    }
}

/// Whether the method has the name and the count of parameters, and code of the class `own` sees it.
fn is_called(own: &Name, name: &Name, count: usize, class: &Name, method: &IfaceMethod) -> bool
    ensures { result ≡ is_called own.now name.now count class.now method.now }
{
    method.name == *name && method.params.len() == count && is_seen(own, class, method.kind)
}

/// The first method of the class that is called so, with the class.
fn own_method<'a>(
    own: &Name,
    name: &Name,
    count: usize,
    class: &'a Iface,
) -> Option<(&'a Name, &'a IfaceMethod)>
    ensures { method_at result ≡ own_method own.now name.now count class.now }
{
    let method = class
        .methods
        .as_slice()
        .iter()
        .find(|method| is_called(own, name, count, &class.name, method))?;
    Some((&class.name, method))
}

/// The first method that is called so of a class and its superclasses upwards, with the class that declares it.
fn method_upwards<'a>(
    heads: &'a [Iface],
    class: &'a Iface,
    own: &Name,
    name: &Name,
    count: usize,
) -> Option<(&'a Name, &'a IfaceMethod)>
    requires { head_of heads.now class.now.name ≡ Some class.now }
    ensures { method_at result ≡ method_among own.now name.now count (class.now ∷ superclasses heads.now class.now) }
{
    let mut class = class;
    for _i in 0..heads.len() {
        let found = own_method(own, name, count, class);
        if found.is_some() {
            return found;
        }
        let Some(up) = super_head(heads, class) else {
            return None;
        };
        class = up;
    }
    own_method(own, name, count, class)
}

/// The first method of these classes that is called so, with the class that declares it.
fn method_among<'a>(
    own: &Name,
    name: &Name,
    count: usize,
    classes: &[&'a Iface],
) -> Option<(&'a Name, &'a IfaceMethod)>
    ensures { method_at result ≡ method_among own.now name.now count (classes_at classes.now) }
{
    for class in classes {
        let found = own_method(own, name, count, class);
        if found.is_some() {
            return found;
        }
    }
    None
}

/// The method of that name and count of parameters that a call on a class means, where code of the class `own` sees
/// it; with the class that declares it. It is the class's own, or else a superclass's, or else an interface's. Memory
/// is taken for interfaces alone, and each class is visited once.
#[tactic(auto, using(crate::proofs::Upwards::head_again))]
pub fn method_of<'a>(
    alloc: Global,
    heads: &'a [Iface],
    own: &Name,
    class: &Name,
    name: &Name,
    count: usize,
) -> Result<Option<(&'a Name, &'a IfaceMethod)>, AllocError>
    ensures { IfOk result (λ found. method_at found ≡ method_of heads.now own.now class.now name.now count) }
{
    let Some(class) = head_of(heads, class) else {
        return Ok(None);
    };
    let found = method_upwards(heads, class, own, name, count);
    if found.is_some() {
        return Ok(found);
    }
    let line = line_of(alloc, heads, class)?;
    let above = interfaces_above(alloc, heads, line.as_slice())?;
    Ok(method_among(own, name, count, above.as_slice()))
}

/// The types of the parameters of the first constructor of that count.
pub fn constructor_of(class: &Iface, count: usize) -> Option<&[Ty]>
    ensures { option_copied result ≡ constructor_of class.now count }
{
    for params in class.constructors.as_slice() {
        if params.len() == count {
            return Some(params.as_slice());
        }
    }
    None
}
