ghost use Rattle.std.specs.Prelude.{◌≡◌, true, map, Some, IfOk, IfErr, OnOk};
ghost use Rattle.std.specs.List.{list_all};
ghost use Rattle.std.specs.Option.{option_map_or};
ghost use Rattle.class_form.specs.Constants.{utf8_at, class_name_at};
ghost use Rattle.class_form.specs.WellFormed.{member_fits};
ghost use Rattle.jp_store.specs.Classes.{object_name};
ghost use Rattle.jp_meaning.specs.Descriptors.{internal_name, descriptor_of};
ghost use Rattle.jp_meaning.specs.Classes.{field_of_head};
ghost use Rattle.jvm_load.specs.FileClasses.{field_of_member};
ghost use Rattle.code_asm.specs.Held.{Extends, InFiles, Fails};
ghost use Rattle.gen_class.specs.Asked.{with_text, with_class, with_superclass, with_classes, with_heading, with_field, with_fields};
ghost use Rattle.gen_class.specs.Flags.{flag_if, class_flags, member_flags, field_flags};
ghost use Rattle.gen_class.specs.Heads.{NamesClass};

use crate::names::{field_descriptor, internal_name};
use class_form::MemberInfo;
use code_asm::{AsmFault, Pool};
use iface_codec::{Iface, IfaceField};
use jp_pred::{Name, Ty};
use sqlite_items::Items;
use std::alloc::Global;

// Access flags (JVM specification, second edition, 4.1, 4.5 and 4.6).
const PUBLIC: u16 = 0x0001;

const PRIVATE: u16 = 0x0002;

const STATIC: u16 = 0x0008;

const FINAL: u16 = 0x0010;

const SUPER: u16 = 0x0020;

const INTERFACE: u16 = 0x0200;

const ABSTRACT: u16 = 0x0400;

fn flag_if(is_set: bool, flag: u16) -> u16
    ensures { result ≡ flag_if is_set flag }
{
    if is_set { flag } else { 0 }
}

/// The flags of a class or an interface.
pub(crate) fn class_flags(head: &Iface) -> u16
    ensures { result ≡ class_flags head.now }
{
    if head.is_interface {
        PUBLIC | INTERFACE | ABSTRACT
    } else {
        PUBLIC | SUPER | flag_if(head.is_final, FINAL) | flag_if(head.is_abstract, ABSTRACT)
    }
}

/// The flags of a field or a method.
pub(crate) fn member_flags(is_private: bool, is_static: bool) -> u16
    ensures { result ≡ member_flags is_private is_static }
{
    let seen = if is_private { PRIVATE } else { PUBLIC };
    seen | flag_if(is_static, STATIC)
}

/// The indices of a class, of its superclass and of its interfaces.
#[derive(Drop)]
pub(crate) struct Heading {
    pub(crate) this_class: u16,
    pub(crate) super_class: u16,
    pub(crate) interfaces: Items<u16>,
}

/// The indices by which a class's file names the class and its supertypes, which are added to the pool; after a fault it may
/// have got some of them. `Full` comes where they are too many, `OutOfMemory` where memory is wanting.
pub(crate) fn put_heading(alloc: Global, pool: &mut Pool, head: &Iface) -> Result<Heading, AsmFault>
    ensures kept { Extends pool.old pool.new }
    ensures named { IfOk result (λ heading. InFiles pool.new (λ file. NamesClass head.now heading file)) }
    ensures asked { OnOk result (pool.new ≡ with_heading pool.old head.now) }
    ensures refused { IfErr result (λ fault. Fails fault (with_heading pool.old head.now)) }
{
    let this_class = class_index(alloc, pool, &head.name)?;
    let super_class = superclass_index(alloc, pool, &head.superclass)?;
    let interfaces = interface_indices(alloc, pool, head.interfaces.as_slice())?;
    Ok(Heading {
        this_class,
        super_class,
        interfaces,
    })
}

fn class_index(alloc: Global, pool: &mut Pool, name: &Name) -> Result<u16, AsmFault>
    ensures kept { Extends pool.old pool.new }
    ensures named { IfOk result (λ index. InFiles pool.new (λ file. class_name_at file index ≡ Some (internal_name name.now))) }
    ensures asked { OnOk result (pool.new ≡ with_class pool.old name.now) }
    ensures refused { IfErr result (λ fault. Fails fault (with_class pool.old name.now)) }
{
    let name = internal_name(alloc, name)?;
    pool.class(alloc, name.as_slice())
}

fn superclass_index(
    alloc: Global,
    pool: &mut Pool,
    superclass: &Option<Name>,
) -> Result<u16, AsmFault>
    ensures kept { Extends pool.old pool.new }
    ensures named { IfOk result (λ index. InFiles pool.new (λ file. class_name_at file index ≡ Some (option_map_or internal_name superclass.now object_name))) }
    ensures asked { OnOk result (pool.new ≡ with_superclass pool.old superclass.now) }
    ensures refused { IfErr result (λ fault. Fails fault (with_superclass pool.old superclass.now)) }
{
    match superclass {
        Some(name) => class_index(alloc, pool, name),
        None => pool.class(alloc, b"java/lang/Object"),
    }
}

fn interface_indices(alloc: Global, pool: &mut Pool, names: &[Name]) -> Result<Items<u16>, AsmFault>
    ensures kept { Extends pool.old pool.new }
    ensures named { IfOk result (λ indices. InFiles pool.new (λ file. map (class_name_at file) indices ≡ map (λ name. Some (internal_name name)) names.now)) }
    ensures asked { OnOk result (pool.new ≡ with_classes pool.old names.now) }
    ensures refused { IfErr result (λ fault. Fails fault (with_classes pool.old names.now)) }
{
    let mut indices = Items::new(alloc);
    for name in names {
        indices.push(class_index(alloc, pool, name)?)?;
    }
    Ok(indices)
}

/// The fields of a class's file. What they name is added to the pool, and faults are as those of `put_heading`.
pub(crate) fn fields_of(
    alloc: Global,
    pool: &mut Pool,
    fields: &[IfaceField],
) -> Result<Items<MemberInfo>, AsmFault>
    ensures kept { Extends pool.old pool.new }
    ensures named { IfOk result (λ members. InFiles pool.new (λ file. map (field_of_member file) members ≡ map field_of_head fields.now)) }
    ensures flagged { IfOk result (λ members. map (λ member. member.flags) members ≡ map field_flags fields.now) }
    ensures fits { IfOk result (λ members. InFiles pool.new (λ file. list_all (member_fits file.constants) members ≡ true)) }
    ensures asked { OnOk result (pool.new ≡ with_fields pool.old fields.now) }
    ensures refused { IfErr result (λ fault. Fails fault (with_fields pool.old fields.now)) }
{
    let mut members = Items::new(alloc);
    for field in fields {
        members.push(field_of(alloc, pool, field)?)?;
    }
    Ok(members)
}

fn field_of(alloc: Global, pool: &mut Pool, field: &IfaceField) -> Result<MemberInfo, AsmFault>
    ensures kept { Extends pool.old pool.new }
    ensures named { IfOk result (λ member. InFiles pool.new (λ file. field_of_member file member ≡ field_of_head field.now)) }
    ensures flagged { IfOk result (λ member. member.flags ≡ field_flags field.now) }
    ensures fits { IfOk result (λ member. InFiles pool.new (λ file. member_fits file.constants member ≡ true)) }
    ensures asked { OnOk result (pool.new ≡ with_field pool.old field.now) }
    ensures refused { IfErr result (λ fault. Fails fault (with_field pool.old field.now)) }
{
    let name = pool.utf8(alloc, field.name.bytes())?;
    let descriptor = descriptor_index(alloc, pool, &field.ty)?;
    Ok(MemberInfo {
        flags: member_flags(field.is_private, field.is_static),
        name,
        descriptor,
        code: None,
        attributes: Items::new(alloc),
    })
}

fn descriptor_index(alloc: Global, pool: &mut Pool, ty: &Ty) -> Result<u16, AsmFault>
    ensures kept { Extends pool.old pool.new }
    ensures named { IfOk result (λ index. InFiles pool.new (λ file. utf8_at file index ≡ Some (descriptor_of ty.now))) }
    ensures asked { OnOk result (pool.new ≡ with_text pool.old (descriptor_of ty.now)) }
    ensures refused { IfErr result (λ fault. Fails fault (with_text pool.old (descriptor_of ty.now))) }
{
    let descriptor = field_descriptor(alloc, ty)?;
    pool.utf8(alloc, descriptor.as_slice())
}
