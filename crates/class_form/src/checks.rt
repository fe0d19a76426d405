ghost use Rattle.std.specs.Prelude.{◌≡◌, ◌↔◌, ◌-◌, ◌^◌, ◌≤◌, min, not, true, ◌&&◌, ◌||◌, ◌==◌, nat_lt, length, IsTrue};
ghost use Rattle.std.specs.List.{list_all, list_any};
ghost use Rattle.class_form.specs.Layout.{code_content};
ghost use Rattle.class_form.specs.WellFormed.{WellFormed, names, is_utf8, is_class, is_name_and_type, is_code_text, is_spaced, text_fits, has_right_indices, attribute_fits, attributes_fit, code_size, code_fits, any_code_fits, code_count, member_fits, has_code, is_text_byte, is_super_class, is_well_formed, pool_fits, head_fits, count_members_fit, has_code_name, is_code};

use crate::{Attribute, ClassFile, Code, Const, MemberInfo};

/// Whether an index names a text.
pub fn names_utf8(constants: &[Const], index: u16) -> bool
    ensures { result ≡ names is_utf8 constants.now index }
{
    matches!(constants.get(index as usize), Some(Const::Utf8(_)))
}

/// Whether an index names a class.
pub fn names_class(constants: &[Const], index: u16) -> bool
    ensures { result ≡ names is_class constants.now index }
{
    matches!(constants.get(index as usize), Some(Const::Class(_)))
}

/// Whether an index names a name with its type.
pub fn names_name_and_type(constants: &[Const], index: u16) -> bool
    ensures { result ≡ names is_name_and_type constants.now index }
{
    matches!(
        constants.get(index as usize),
        Some(Const::NameAndType(_, _))
    )
}

/// Whether a constant is the text `Code`.
pub fn is_code_text(constant: &Const) -> bool
    ensures { result ≡ is_code_text constant.now }
{
    match constant {
        Const::Utf8(text) => text.bytes() == b"Code".as_slice(),
        _ => false,
    }
}

/// Whether an index names the text `Code`.
pub fn names_code(constants: &[Const], index: u16) -> bool
    ensures { result ≡ names is_code_text constants.now index }
{
    match constants.get(index as usize) {
        Some(constant) => is_code_text(constant),
        None => false,
    }
}

/// How many bytes the content of the attribute `Code` takes, or `u64::MAX` where that is more.
#[tactic(auto, unfolding(crate::specs::WellFormed::code_size))]
pub fn code_size(code: &Code) -> u64
    ensures sized { result ≡ min (code_size code.now) (2 ^ 64 - 1) }
    // That many bytes is the content, as the standard lays it out.
    ensures length_of_content { result ≡ min (length (code_content code.now)) (2 ^ 64 - 1) }
{
    let mut size = (code.bytes.bytes().len() as u64).saturating_add(12);
    for attribute in code.attributes.as_slice() {
        let content = attribute.content.bytes().len() as u64;
        size = size.saturating_add(content).saturating_add(6);
    }
    size
}

/// Whether each index of a class file names a constant of the right kind and each length fits its field, `Unused`
/// stands exactly first and behind each `Long` and `Double`, no text has a byte 0 or one from 0xF0 up, code has 1
/// to 65,535 bytes, a file with code has the text `Code`, and no other attribute of a member has that name.
pub fn well_formed(file: &ClassFile) -> bool
    ensures { IsTrue result ↔ WellFormed file.now }
{
    all_fits(file)
}

fn all_fits(file: &ClassFile) -> bool
    ensures { result ≡ is_well_formed file.now }
{
    let constants = file.constants.as_slice();
    pool_fits(constants) && head_fits(constants, file) && members_fit(constants, file)
}

fn pool_fits(constants: &[Const]) -> bool
    ensures { result ≡ pool_fits constants.now }
{
    constants.len() < 65536
        && is_spaced(constants)
        && texts_fit(constants)
        && have_right_indices(constants)
}

// Whether `Unused` stands exactly first and behind each constant of two indices.
fn is_spaced(constants: &[Const]) -> bool
    ensures { result ≡ is_spaced true constants.now }
{
    let mut behind = true;
    for constant in constants {
        if behind != matches!(constant, Const::Unused) {
            return false;
        }
        behind = matches!(constant, Const::Long(_) | Const::Double(_));
    }
    !behind
}

fn texts_fit(constants: &[Const]) -> bool
    ensures { result ≡ list_all text_fits constants.now }
{
    constants.iter().all(text_fits)
}

fn text_fits(constant: &Const) -> bool
    ensures { result ≡ text_fits constant.now }
{
    match constant {
        Const::Utf8(text) => text.bytes().len() < 65536 && is_text(text.bytes()),
        _ => true,
    }
}

fn is_text(bytes: &[u8]) -> bool
    ensures { result ≡ list_all is_text_byte bytes.now }
{
    bytes.iter().all(|byte| 0 < *byte && *byte < 240)
}

fn have_right_indices(constants: &[Const]) -> bool
    ensures { result ≡ list_all (has_right_indices constants.now) constants.now }
{
    constants
        .iter()
        .all(|constant| has_right_indices(constants, constant))
}

fn has_right_indices(constants: &[Const], constant: &Const) -> bool
    ensures { result ≡ has_right_indices constants.now constant.now }
{
    match constant {
        Const::Class(text) | Const::Text(text) => names_utf8(constants, *text),
        Const::Fieldref(class, name)
        | Const::Methodref(class, name)
        | Const::InterfaceMethodref(class, name) => {
            names_class(constants, *class) && names_name_and_type(constants, *name)
        }
        Const::NameAndType(name, descriptor) => {
            names_utf8(constants, *name) && names_utf8(constants, *descriptor)
        }
        _ => true,
    }
}

// This class, the super class and the interfaces.
fn head_fits(constants: &[Const], file: &ClassFile) -> bool
    ensures { result ≡ head_fits constants.now file.now }
{
    names_class(constants, file.this_class)
        && is_super_class(constants, file.super_class)
        && file.interfaces.len() < 65536
        && are_classes(constants, file.interfaces.as_slice())
}

/// Whether an index names a class, or is the 0 of a class without a super class.
pub fn is_super_class(constants: &[Const], index: u16) -> bool
    ensures { result ≡ is_super_class constants.now index }
{
    index == 0 || names_class(constants, index)
}

fn are_classes(constants: &[Const], indices: &[u16]) -> bool
    ensures { result ≡ list_all (names is_class constants.now) indices.now }
{
    indices.iter().all(|index| names_class(constants, *index))
}

// The fields, the methods, the attributes, and the name of the attribute that code stands in.
fn members_fit(constants: &[Const], file: &ClassFile) -> bool
    ensures { result ≡ (count_members_fit constants.now file.now.fields && count_members_fit constants.now file.now.methods && attributes_fit constants.now 0 file.now.attributes && has_code_name file.now) }
{
    count_members_fit(constants, file.fields.as_slice())
        && count_members_fit(constants, file.methods.as_slice())
        && attributes_fit(constants, 0, file.attributes.as_slice())
        && has_code_name(file)
}

fn has_code_name(file: &ClassFile) -> bool
    ensures { result ≡ has_code_name file.now }
{
    let used = any_has_code(file.fields.as_slice()) || any_has_code(file.methods.as_slice());
    !used || any_is_code_text(file.constants.as_slice())
}

fn any_has_code(members: &[MemberInfo]) -> bool
    ensures { result ≡ list_any has_code members.now }
{
    members.iter().any(|member| member.code.is_some())
}

fn any_is_code_text(constants: &[Const]) -> bool
    ensures { result ≡ list_any is_code_text constants.now }
{
    constants.iter().any(is_code_text)
}

fn count_members_fit(constants: &[Const], members: &[MemberInfo]) -> bool
    ensures { result ≡ count_members_fit constants.now members.now }
{
    members.len() < 65536 && all_members_fit(constants, members)
}

fn all_members_fit(constants: &[Const], members: &[MemberInfo]) -> bool
    ensures { result ≡ list_all (member_fits constants.now) members.now }
{
    members.iter().all(|member| member_fits(constants, member))
}

fn member_fits(constants: &[Const], member: &MemberInfo) -> bool
    ensures { result ≡ member_fits constants.now member.now }
{
    names_utf8(constants, member.name)
        && names_utf8(constants, member.descriptor)
        && any_code_fits(constants, &member.code)
        && attributes_fit(
            constants,
            code_count(&member.code),
            member.attributes.as_slice(),
        )
        && none_is_code(constants, member.attributes.as_slice())
}

fn code_count(code: &Option<Code>) -> usize
    ensures count { result ≡ code_count code.now }
    ensures small { result ≤ 1 }
{
    match code {
        None => 0,
        Some(_) => 1,
    }
}

fn none_is_code(constants: &[Const], attributes: &[Attribute]) -> bool
    ensures { result ≡ list_all (λ attribute. not (is_code constants.now attribute)) attributes.now }
{
    attributes
        .iter()
        .all(|attribute| !names_code(constants, attribute.name))
}

fn any_code_fits(constants: &[Const], code: &Option<Code>) -> bool
    ensures { result ≡ any_code_fits constants.now code.now }
{
    match code {
        None => true,
        Some(code) => code_fits(constants, code),
    }
}

fn code_fits(constants: &[Const], code: &Code) -> bool
    ensures { result ≡ code_fits constants.now code.now }
{
    0 < code.bytes.bytes().len()
        && code.bytes.bytes().len() < 65536
        && attributes_fit(constants, 0, code.attributes.as_slice())
        && code_size(code) < 0x1_0000_0000
}

// Whether these attributes fit, and with `more` their count.
fn attributes_fit(constants: &[Const], more: usize, attributes: &[Attribute]) -> bool
    requires { more ≤ 1 }
    ensures { result ≡ attributes_fit constants.now more attributes.now }
{
    attributes.len() < 65536 - more && all_attributes_fit(constants, attributes)
}

fn all_attributes_fit(constants: &[Const], attributes: &[Attribute]) -> bool
    ensures { result ≡ list_all (attribute_fits constants.now) attributes.now }
{
    attributes
        .iter()
        .all(|attribute| attribute_fits(constants, attribute))
}

fn attribute_fits(constants: &[Const], attribute: &Attribute) -> bool
    ensures { result ≡ attribute_fits constants.now attribute.now }
{
    names_utf8(constants, attribute.name) && attribute.content.bytes().len() < 0x1_0000_0000
}
