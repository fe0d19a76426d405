ghost use Rattle.std.specs.Prelude.{◌≡◌, ◌&&◌, IfOk};
ghost use Rattle.std.specs.List.{list_any};
ghost use Rattle.std.specs.Option.{option_copied};
ghost use Rattle.jp_meaning.specs.Classes.{is_body, is_named};
ghost use Rattle.jp_meaning.specs.Descriptors.{method_descriptor};
ghost use Rattle.whole_classes.specs.Bodies.{typed_at, called, method_at, is_body_of, gives_body, lacks_some};

use crate::descriptor::method_descriptor;
use crate::kinds::{is_body, is_virtual};
use iface_codec::{Iface, IfaceMethod};
use jp_meaning::{TypedClass, TypedMember, TypedPart};
use jp_pred::Name;
use std::alloc::{AllocError, Global};

/// Whether one of the methods is of a family of which none of the classes has a body.
pub(crate) fn lacks_some(
    alloc: Global,
    line: &[&TypedClass],
    methods: &[IfaceMethod],
) -> Result<bool, AllocError>
    ensures { IfOk result (λ lacks. lacks ≡ lacks_some (typed_at line.now) methods.now) }
{
    for method in methods {
        if is_virtual(method.kind) && !has_body(alloc, line, method)? {
            return Ok(true);
        }
    }
    Ok(false)
}

/// Whether one of the classes has a body with the method's name and descriptor.
fn has_body(alloc: Global, line: &[&TypedClass], method: &IfaceMethod) -> Result<bool, AllocError>
    ensures { IfOk result (λ has. has ≡ list_any (gives_body
        (called method.now.name (method_descriptor method.now.params method.now.result))) (typed_at line.now)) }
{
    let descriptor = method_descriptor(alloc, method.params.as_slice(), &method.result)?;
    one_gives_body(alloc, line, &method.name, descriptor.as_slice())
}

fn one_gives_body(
    alloc: Global,
    line: &[&TypedClass],
    name: &Name,
    descriptor: &[u8],
) -> Result<bool, AllocError>
    ensures { IfOk result (λ gives. gives ≡ list_any (gives_body (called name.now descriptor.now)) (typed_at line.now)) }
{
    for class in line {
        if gives_body(alloc, class, name, descriptor)? {
            return Ok(true);
        }
    }
    Ok(false)
}

/// Whether a class has a body with that name and descriptor.
fn gives_body(
    alloc: Global,
    class: &TypedClass,
    name: &Name,
    descriptor: &[u8],
) -> Result<bool, AllocError>
    ensures { IfOk result (λ gives. gives ≡ gives_body (called name.now descriptor.now) class.now) }
{
    for member in class.members.as_slice() {
        if is_body_of(alloc, &class.head, member, name, descriptor)? {
            return Ok(true);
        }
    }
    Ok(false)
}

/// Whether a member is a body with that name and descriptor.
fn is_body_of(
    alloc: Global,
    head: &Iface,
    member: &TypedMember,
    name: &Name,
    descriptor: &[u8],
) -> Result<bool, AllocError>
    ensures { IfOk result (λ is. is ≡ is_body_of (called name.now descriptor.now) head.now member.now) }
{
    match method_at(head, member.part) {
        Some(method) => is_body_named(alloc, method, name, descriptor),
        None => Ok(false),
    }
}

/// The method that a member is.
fn method_at(head: &Iface, part: TypedPart) -> Option<&IfaceMethod>
    ensures { option_copied result ≡ method_at head.now part }
{
    match part {
        TypedPart::Method(at) => head.methods.as_slice().get(at as usize),
        TypedPart::Field(_) | TypedPart::Constructor(_) => None,
    }
}

fn is_body_named(
    alloc: Global,
    method: &IfaceMethod,
    name: &Name,
    descriptor: &[u8],
) -> Result<bool, AllocError>
    ensures { IfOk result (λ is. is ≡ (is_body method.now.kind && is_named (called name.now descriptor.now) method.now)) }
{
    if !is_body(method.kind) || method.name != *name {
        return Ok(false);
    }
    let own = method_descriptor(alloc, method.params.as_slice(), &method.result)?;
    Ok(own.as_slice() == descriptor)
}
