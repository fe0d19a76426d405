ghost use Rattle.std.specs.Prelude.{◌≡◌, ◌+◌, ◌≤◌, ◌∷◌, length, None, Some, IfOk};
ghost use Rattle.std.specs.Option.{option_copied, option_map};
ghost use Rattle.type_rules.specs.Names.{receiver_slots, variable_from, variable_of, own_field, is_class_name, class_of_type, class_of_value, called_in, called, is_text_call, is_before_dot, concrete_super, super_method};
ghost use Rattle.type_heads.specs.Members.{field_at, method_at, slot_at, behind_dot};

use crate::assigning::typed;
use crate::fields::{field_of, super_head};
use crate::heads::{head_of, is_concrete, names_class};
use crate::methods::{is_static, method_of};
use crate::types::is_io;
use iface_codec::{Iface, IfaceField, IfaceMethod};
use jp_pred::{Name, Ty};
use std::alloc::{AllocError, Global};
use type_rules::{Known, Role, Scope, Seen, Variable};

/// The slot and the type of the first variable of that name, where the first one has the slot `begin`.
pub fn variable_from<'a>(begin: u8, name: &Name, variables: &'a [Variable]) -> Option<(u8, &'a Ty)>
    requires { begin + length variables.now ≤ 256 }
    ensures { slot_at result ≡ variable_from begin name.now variables.now }
{
    for (i, variable) in variables.iter().enumerate() {
        if variable.name == *name {
            return Some((begin + i as u8, &variable.ty));
        }
    }
    None
}

/// The slot and the type of the local, alias or parameter of that name.
pub fn variable_of<'a>(scope: &'a Scope, name: &Name) -> Option<(u8, &'a Ty)>
    requires { length scope.now.variables ≤ 255 }
    ensures { slot_at result ≡ variable_of scope.now name.now }
{
    let begin = if scope.is_static { 0 } else { 1 };
    variable_from(begin, name, scope.variables.as_slice())
}

/// The field of that name of the scope's class, with the class that declares it.
pub fn own_field<'a>(scope: &'a Scope, name: &Name) -> Option<(&'a Name, &'a IfaceField)>
    ensures { field_at result ≡ own_field scope.now name.now }
{
    field_of(scope.heads.as_slice(), &scope.class, &scope.class, name)
}

/// Whether the name, written in such a role, is that of a class.
pub fn is_class_name(scope: &Scope, role: Role, name: &Name) -> bool
    ensures { result ≡ is_class_name scope.now role name.now }
{
    role == Role::BeforeDot && names_class(scope.heads.as_slice(), name)
}

/// The class in which a member of a value is looked for.
pub fn class_of_value(known: &Known) -> Option<&Name>
    ensures { option_copied result ≡ class_of_value known.now }
{
    match &known.expr.get().ty {
        Ty::Class(name) if !known.is_null => Some(name),
        _ => None,
    }
}

/// The method that a call by its name alone means, with the class that declares it.
pub fn own_method<'a>(
    alloc: Global,
    scope: &'a Scope,
    name: &Name,
    count: usize,
) -> Result<Option<(&'a Name, &'a IfaceMethod)>, AllocError>
    ensures { IfOk result (λ found. method_at found ≡ called scope.now None name.now count) }
{
    let class = &scope.class;
    method_of(alloc, scope.heads.as_slice(), class, class, name, count)
}

/// The method that a call behind a dot means, with the class that declares it.
pub fn called<'a>(
    alloc: Global,
    scope: &'a Scope,
    object: &Seen,
    name: &Name,
    count: usize,
) -> Result<Option<(&'a Name, &'a IfaceMethod)>, AllocError>
    ensures { IfOk result (λ found. method_at found ≡ called scope.now (Some object.now) name.now count) }
{
    match called_in(object) {
        Some(class) => method_of(
            alloc,
            scope.heads.as_slice(),
            &scope.class,
            class,
            name,
            count,
        ),
        None => Ok(None),
    }
}

/// The class in which a method is looked for that is called behind a dot.
fn called_in(object: &Seen) -> Option<&Name>
    ensures { option_copied result ≡ behind_dot object.now }
{
    match object {
        Seen::Class(name) => Some(name),
        _ => class_of_value(typed(object)?),
    }
}

/// Whether a call behind a dot is written as `Io.text(..)`.
pub fn is_text_call(object: &Seen, name: &Name) -> bool
    ensures { result ≡ is_text_call (Some object.now) name.now }
{
    match object {
        Seen::Class(class) => is_io(class) && name.bytes() == b"text".as_slice(),
        _ => false,
    }
}

/// The superclass of the scope's class, where it is a concrete class other than Object.
fn concrete_super(scope: &Scope) -> Option<&Iface>
    ensures { option_copied result ≡ concrete_super scope.now }
{
    let heads = scope.heads.as_slice();
    let above = super_head(heads, head_of(heads, &scope.class)?)?;
    if is_concrete(above) && above.name.bytes() != b"Object".as_slice() {
        Some(above)
    } else {
        None
    }
}

/// The family of that name and count that `super.` calls, behind the superclass, which has it.
pub fn super_method<'a>(
    alloc: Global,
    scope: &'a Scope,
    name: &Name,
    count: usize,
) -> Result<Option<(&'a Name, &'a IfaceMethod)>, AllocError>
    ensures { IfOk result (λ found. method_at found ≡ super_method scope.now name.now count) }
{
    let Some(above) = concrete_super(scope) else {
        return Ok(None);
    };
    let heads = scope.heads.as_slice();
    match method_of(alloc, heads, &scope.class, &above.name, name, count)? {
        Some((_, method)) if !is_static(method.kind) => Ok(Some((&above.name, method))),
        _ => Ok(None),
    }
}
