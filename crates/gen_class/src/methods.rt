ghost use Rattle.std.specs.Prelude.{◌≡◌, ◌++◌, [], true, map, Some, codes, IfOk, IfErr, OnOk};
ghost use Rattle.std.specs.List.{filter_map, cons_option, list_all};
ghost use Rattle.std.specs.Option.{option_map};
ghost use Rattle.jp_pred.specs.declared.ty.Ty.TheVariants as ty;
ghost use Rattle.jp_meaning.specs.Descriptors.{method_descriptor};
ghost use Rattle.class_form.specs.WellFormed.{member_fits};
ghost use Rattle.code_asm.specs.Held.{Extends, InFiles};
ghost use Rattle.gen_laws.specs.Compiled.{name_of_method, name_of_part};
ghost use Rattle.gen_class.specs.Asked.{with_member, with_members};
ghost use Rattle.gen_class.specs.Excuses.{ExcusesMember, ExcusesMethods};
ghost use Rattle.gen_class.specs.Flags.{flags_of_kind, flags_of_part};
ghost use Rattle.gen_class.specs.Members.{IfWritten, EachWritten, HasSlots, CallsAreMeant, HasPlainTypes};
ghost use Rattle.gen_class.specs.Made.{as_name, InClass, IsMade, AreMade, Adds};

use crate::heads::member_flags;
use crate::names::method_descriptor;
use class_form::{Bytes, MemberInfo};
use code_asm::Pool;
use gen_code::BodyFault;
use gen_member::body_code;
use iface_codec::{Iface, IfaceMethod, MethodKind};
use jp_meaning::{TypedClass, TypedMember, TypedPart};
use jp_pred::{Hier, Ty};
use sqlite_items::Items;
use std::alloc::{AllocError, Global};

/// What stands in front of a method's code.
#[derive(Drop)]
pub(crate) struct MethodHead {
    pub(crate) flags: u16,
    pub(crate) name: Bytes,
    pub(crate) descriptor: Bytes,
}

/// The methods of a class's file, in the order of the members with statements, whose paths lead through classes of the
/// hierarchy. What they name is added to the pool; after a fault it may have got some of it. Faults are those of
/// `body_code`.
pub(crate) fn methods_of(
    alloc: Global,
    pool: &mut Pool,
    hier: &Hier,
    class: &TypedClass,
) -> Result<Items<MemberInfo>, BodyFault>
    requires slots { EachWritten class.now (HasSlots class.now.head) }
    requires meant { EachWritten class.now (CallsAreMeant hier.now class.now.head) }
    requires signed { HasPlainTypes class.now.head }
    ensures kept { Extends pool.old pool.new }
    ensures made { IfOk result (λ methods. InClass class.now.head pool.new (λ file. AreMade hier.now class.now.head file class.now.members methods)) }
    ensures flagged { IfOk result (λ methods. map (λ method. method.flags) methods ≡ filter_map (λ m. flags_of_part class.now.head m.part) class.now.members) }
    ensures fits { IfOk result (λ methods. InFiles pool.new (λ file. list_all (member_fits file.constants) methods ≡ true)) }
    ensures asked { OnOk result (pool.new ≡ with_members hier.now class.now.head pool.old class.now.members) }
    ensures refused { IfErr result (ExcusesMethods hier.now class.now pool.old) }
{
    let mut methods = Items::new(alloc);
    for member in class.members.as_slice() {
        put_method(alloc, pool, hier, &class.head, member, &mut methods)?;
    }
    Ok(methods)
}

// Adds the method of a member of a class, if the member has statements.
fn put_method(
    alloc: Global,
    pool: &mut Pool,
    hier: &Hier,
    class: &Iface,
    member: &TypedMember,
    methods: &mut Items<MemberInfo>,
) -> Result<(), BodyFault>
    requires slots { IfWritten class.now member.now (HasSlots class.now member.now) }
    requires meant { IfWritten class.now member.now (CallsAreMeant hier.now class.now member.now) }
    requires signed { HasPlainTypes class.now }
    ensures kept { Extends pool.old pool.new }
    ensures made { OnOk result (InClass class.now pool.new (Adds hier.now class.now member.now methods.old methods.new)) }
    ensures flagged { OnOk result (map (λ method. method.flags) methods.new ≡ map (λ method. method.flags) methods.old ++ cons_option (flags_of_part class.now member.now.part) []) }
    ensures fits { OnOk result (InFiles pool.new (λ file. list_all (member_fits file.constants) methods.old ≡ true → list_all (member_fits file.constants) methods.new ≡ true)) }
    ensures asked { OnOk result (pool.new ≡ with_member hier.now class.now pool.old member.now) }
    ensures refused { IfErr result (ExcusesMember hier.now class.now pool.old member.now) }
{
    match head_of_part(alloc, class, member.part)? {
        None => Ok(()),
        Some(head) => {
            methods.push(method_of(alloc, pool, hier, class, member, &head)?)?;
            Ok(())
        }
    }
}

// The method of a member of a class, behind its head.
fn method_of(
    alloc: Global,
    pool: &mut Pool,
    hier: &Hier,
    class: &Iface,
    member: &TypedMember,
    head: &MethodHead,
) -> Result<MemberInfo, BodyFault>
    requires named { name_of_part class.now member.now.part ≡ Some (as_name head.now) }
    requires flagged { flags_of_part class.now member.now.part ≡ Some head.now.flags }
    requires slots { HasSlots class.now member.now }
    requires meant { CallsAreMeant hier.now class.now member.now }
    requires signed { HasPlainTypes class.now }
    ensures kept { Extends pool.old pool.new }
    ensures made { IfOk result (λ method. InClass class.now pool.new (λ file. IsMade hier.now class.now member.now file method)) }
    ensures flags { IfOk result (λ method. method.flags ≡ head.now.flags) }
    ensures fits { IfOk result (λ method. InFiles pool.new (λ file. member_fits file.constants method ≡ true)) }
    ensures asked { OnOk result (pool.new ≡ with_member hier.now class.now pool.old member.now) }
    ensures refused { IfErr result (ExcusesMember hier.now class.now pool.old member.now) }
{
    let name = pool.utf8(alloc, head.name.bytes())?;
    let descriptor = pool.utf8(alloc, head.descriptor.bytes())?;
    let code = body_code(alloc, pool, hier, class, member)?;
    Ok(MemberInfo {
        flags: head.flags,
        name,
        descriptor,
        code: Some(code),
        attributes: Items::new(alloc),
    })
}

// What stands in front of the code of a member with statements, or `None` for another member.
fn head_of_part(
    alloc: Global,
    class: &Iface,
    part: TypedPart,
) -> Result<Option<MethodHead>, AllocError>
    ensures named { IfOk result (λ head. option_map as_name head ≡ name_of_part class.now part) }
    ensures flagged { IfOk result (λ head. option_map (λ h. h.flags) head ≡ flags_of_part class.now part) }
{
    match part {
        TypedPart::Field(_) => Ok(None),
        TypedPart::Method(at) => match class.methods.get(usize::from(at)) {
            None => Ok(None),
            Some(method) => head_of_method(alloc, method),
        },
        TypedPart::Constructor(at) => match class.constructors.get(usize::from(at)) {
            None => Ok(None),
            Some(params) => Ok(Some(head_of_constructor(alloc, params.as_slice())?)),
        },
    }
}

fn head_of_method(alloc: Global, method: &IfaceMethod) -> Result<Option<MethodHead>, AllocError>
    ensures named { IfOk result (λ head. option_map as_name head ≡ name_of_method method.now.kind method.now) }
    ensures flagged { IfOk result (λ head. option_map (λ h. h.flags) head ≡ flags_of_kind method.now.kind) }
{
    match method.kind {
        MethodKind::Abstract => Ok(None),
        MethodKind::Body => Ok(Some(head_with(alloc, method, member_flags(false, false))?)),
        MethodKind::Static => Ok(Some(head_with(alloc, method, member_flags(false, true))?)),
        MethodKind::PrivateStatic => Ok(Some(head_with(alloc, method, member_flags(true, true))?)),
    }
}

fn head_with(alloc: Global, method: &IfaceMethod, flags: u16) -> Result<MethodHead, AllocError>
    ensures named { IfOk result (λ head. as_name head ≡ record { name = method.now.name; descriptor = method_descriptor method.now.params method.now.result }) }
    ensures flags { IfOk result (λ head. head.flags ≡ flags) }
{
    let descriptor = method_descriptor(alloc, method.params.as_slice(), &method.result)?;
    Ok(MethodHead {
        flags,
        name: Bytes::from_bytes(alloc, method.name.bytes())?,
        descriptor: Bytes::from_vec(descriptor),
    })
}

fn head_of_constructor(alloc: Global, params: &[Ty]) -> Result<MethodHead, AllocError>
    ensures named { IfOk result (λ head. as_name head ≡ record { name = codes "<init>"; descriptor = method_descriptor params.now ty.Void }) }
    ensures flags { IfOk result (λ head. head.flags ≡ 0x0001) }
{
    let descriptor = method_descriptor(alloc, params, &Ty::Void)?;
    Ok(MethodHead {
        flags: member_flags(false, false),
        name: Bytes::from_bytes(alloc, b"<init>")?,
        descriptor: Bytes::from_vec(descriptor),
    })
}
