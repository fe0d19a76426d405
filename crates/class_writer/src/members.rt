ghost use Rattle.std.specs.Prelude.{◌≡◌, ◌++◌, ◌<◌, OnOk, IfSome, IsTrue, List, length, flat_map};
ghost use Rattle.std.specs.List.{list_all, All};
ghost use Rattle.class_form.specs.declared.constant.Const.{Const};
ghost use Rattle.class_form.specs.WellFormed.{member_fits, code_fits, attributes_fit, attribute_fits, count_members_fit};
ghost use Rattle.class_form.specs.Layout.{attribute_bytes, attribute_list_bytes, code_content, MemberInRange, CodeInRange, u2};
ghost use Rattle.class_writer.specs.Written.{code_attribute, with_code, written_member, written_members};

use crate::puts::{put_count, put_length, put_u2};
use class_form::{Attribute, Code, MemberInfo, code_size};
use std::alloc::AllocError;

/// The fields or the methods behind their count (JVM specification, second edition, 4.5, 4.6).
pub(crate) fn put_members(
    out: &mut Vec<u8>,
    members: &[MemberInfo],
    code_name: u16,
) -> Result<(), AllocError>
    requires { (constants : List Const) × IsTrue (count_members_fit constants members.now) }
    ensures spelled { OnOk result (out.new.items ≡ out.old.items ++ u2 (length members.now) ++ written_members code_name members.now) }
    ensures numbers { OnOk result (All MemberInRange members.now) }
{
    put_count(out, members.len())?;
    for member in members {
        put_member(out, member, code_name)?;
    }
    Ok(())
}

#[tactic(auto, unfolding(class_form::specs::Layout::member_bytes))]
fn put_member(out: &mut Vec<u8>, member: &MemberInfo, code_name: u16) -> Result<(), AllocError>
    requires { (constants : List Const) × IsTrue (member_fits constants member.now) }
    ensures spelled { OnOk result (out.new.items ≡ out.old.items ++ written_member code_name member.now) }
    ensures numbers { OnOk result (MemberInRange member.now) }
{
    put_u2(out, member.flags)?;
    put_u2(out, member.name)?;
    put_u2(out, member.descriptor)?;
    put_all_attributes(out, member, code_name)
}

// The attributes of a member, its code first.
#[tactic(auto, unfolding(class_form::specs::Layout::attribute_list_bytes))]
fn put_all_attributes(
    out: &mut Vec<u8>,
    member: &MemberInfo,
    code_name: u16,
) -> Result<(), AllocError>
    requires { (constants : List Const) × IsTrue (member_fits constants member.now) }
    ensures spelled { OnOk result (out.new.items ≡ out.old.items ++ attribute_list_bytes (with_code code_name member.now.code member.now.attributes)) }
    ensures numbers { OnOk result (IfSome member.now.code CodeInRange) }
{
    let kept = member.attributes.as_slice();
    match &member.code {
        None => put_count(out, kept.len())?,
        Some(code) => {
            put_count(out, kept.len() + 1)?;
            put_code(out, code, code_name)?;
        }
    }
    put_each(out, kept)
}

// Code as an attribute (4.7.3).
#[tactic(auto, unfolding(class_form::specs::Layout::attribute_bytes))]
fn put_code(out: &mut Vec<u8>, code: &Code, name: u16) -> Result<(), AllocError>
    requires { (constants : List Const) × IsTrue (code_fits constants code.now) }
    ensures spelled { OnOk result (out.new.items ≡ out.old.items ++ attribute_bytes (code_attribute name code.now)) }
    ensures numbers { OnOk result (CodeInRange code.now) }
{
    put_u2(out, name)?;
    put_length(out, content_length(code))?;
    put_content(out, code)
}

fn content_length(code: &Code) -> u64
    requires { (constants : List Const) × IsTrue (code_fits constants code.now) }
    ensures is_length { result ≡ length (code_content code.now) }
    ensures fits { result < 4294967296 }
{
    code_size(code)
}

#[tactic(auto, unfolding(class_form::specs::Layout::code_content))]
fn put_content(out: &mut Vec<u8>, code: &Code) -> Result<(), AllocError>
    requires { (constants : List Const) × IsTrue (code_fits constants code.now) }
    ensures spelled { OnOk result (out.new.items ≡ out.old.items ++ code_content code.now) }
    ensures numbers { OnOk result (CodeInRange code.now) }
{
    put_u2(out, code.max_stack)?;
    put_u2(out, code.max_locals)?;
    put_length(out, code.bytes.bytes().len() as u64)?;
    out.extend_from_slice(code.bytes.bytes())?;
    put_u2(out, 0)?;
    put_attributes(out, code.attributes.as_slice())
}

/// A list of attributes behind its count (4.7).
#[tactic(auto, unfolding(class_form::specs::Layout::attribute_list_bytes))]
pub(crate) fn put_attributes(out: &mut Vec<u8>, attributes: &[Attribute]) -> Result<(), AllocError>
    requires { (constants : List Const) × IsTrue (attributes_fit constants 0 attributes.now) }
    ensures { OnOk result (out.new.items ≡ out.old.items ++ attribute_list_bytes attributes.now) }
{
    put_count(out, attributes.len())?;
    put_each(out, attributes)
}

fn put_each(out: &mut Vec<u8>, attributes: &[Attribute]) -> Result<(), AllocError>
    requires { (constants : List Const) × IsTrue (list_all (attribute_fits constants) attributes.now) }
    ensures { OnOk result (out.new.items ≡ out.old.items ++ flat_map attribute_bytes attributes.now) }
{
    for attribute in attributes {
        put_attribute(out, attribute)?;
    }
    Ok(())
}

#[tactic(auto, unfolding(class_form::specs::Layout::attribute_bytes))]
fn put_attribute(out: &mut Vec<u8>, attribute: &Attribute) -> Result<(), AllocError>
    requires { length attribute.now.content < 4294967296 }
    ensures { OnOk result (out.new.items ≡ out.old.items ++ attribute_bytes attribute.now) }
{
    put_u2(out, attribute.name)?;
    put_length(out, attribute.content.bytes().len() as u64)?;
    out.extend_from_slice(attribute.content.bytes())
}
