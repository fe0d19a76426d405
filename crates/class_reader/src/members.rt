ghost use Rattle.std.specs.Prelude.{◌≡◌, IfOk};
ghost use Rattle.class_reader.specs.Fields.{Gives, many_at};
ghost use Rattle.class_reader.specs.Reading.{first_code, kept, held_at, all_held_at, nothing_held, member_at, members_at};

use crate::attributes::{code_attribute, content};
use crate::fault::{ClassKind, Stop};
use crate::fields::{fault, file_edge, text_index, u2};
use class_form::{Attribute, Bytes, Code, Const, MemberInfo, names_code};
use sqlite_items::Items;
use std::alloc::{AllocError, Global};

// What was read of a member's attributes.
#[derive(Debug, Drop)]
struct Held {
    code: Option<Code>,
    attributes: Items<Attribute>,
}

/// The fields or the methods (JVM specification, second edition, 4.5, 4.6), and the bytes behind them.
#[tactic(auto, unfolding(crate::specs::Reading::members_at))]
pub(crate) fn members<'a>(
    alloc: Global,
    constants: &[Const],
    bytes: &'a [u8],
) -> Result<(Items<MemberInfo>, &'a [u8]), Stop>
    ensures { Gives (λ x. (x.0, x.1.now)) result (members_at constants.now bytes.now) }
{
    let (count, rest) = u2(file_edge(), bytes)?;
    many_members(alloc, constants, count, rest)
}

fn many_members<'a>(
    alloc: Global,
    constants: &[Const],
    count: u16,
    bytes: &'a [u8],
) -> Result<(Items<MemberInfo>, &'a [u8]), Stop>
    ensures { Gives (λ x. (x.0, x.1.now)) result (many_at (member_at constants.now) count bytes.now) }
{
    let mut members = Items::new(alloc);
    let mut rest = bytes;
    for _ in 0..count {
        let (found, after) = member(alloc, constants, rest)?;
        members.push(found)?;
        rest = after;
    }
    Ok((members, rest))
}

#[tactic(auto, unfolding(crate::specs::Reading::member_at))]
fn member<'a>(
    alloc: Global,
    constants: &[Const],
    bytes: &'a [u8],
) -> Result<(MemberInfo, &'a [u8]), Stop>
    ensures { Gives (λ x. (x.0, x.1.now)) result (member_at constants.now bytes.now) }
{
    let (flags, rest) = u2(file_edge(), bytes)?;
    let (name, rest) = text_index(file_edge(), constants, rest)?;
    let (descriptor, rest) = text_index(file_edge(), constants, rest)?;
    let (count, rest) = u2(file_edge(), rest)?;
    let (held, rest) = all_held(alloc, constants, count, rest)?;
    let member = MemberInfo {
        flags,
        name,
        descriptor,
        code: held.code,
        attributes: held.attributes,
    };
    Ok((member, rest))
}

fn all_held<'a>(
    alloc: Global,
    constants: &[Const],
    count: u16,
    bytes: &'a [u8],
) -> Result<(Held, &'a [u8]), Stop>
    ensures { Gives (λ x. (x.0, x.1.now)) result (all_held_at constants.now nothing_held count bytes.now) }
{
    let mut held = Held {
        code: None,
        attributes: Items::new(alloc),
    };
    let mut rest = bytes;
    for _ in 0..count {
        let (more, after) = one_more(alloc, constants, held, rest)?;
        held = more;
        rest = after;
    }
    Ok((held, rest))
}

// One more attribute of a member: its code, or one that is kept.
#[tactic(auto, unfolding(crate::specs::Reading::held_at))]
fn one_more<'a>(
    alloc: Global,
    constants: &[Const],
    held: Held,
    bytes: &'a [u8],
) -> Result<(Held, &'a [u8]), Stop>
    ensures { Gives (λ x. (x.0, x.1.now)) result (held_at constants.now held bytes.now) }
{
    let (name, rest) = text_index(file_edge(), constants, bytes)?;
    if names_code(constants, name) {
        return first_code(alloc, constants, held, bytes, rest);
    }
    let (content, rest) = content(alloc, file_edge(), rest)?;
    Ok((keep(held, name, content)?, rest))
}

fn first_code<'a>(
    alloc: Global,
    constants: &[Const],
    held: Held,
    bytes: &[u8],
    rest: &'a [u8],
) -> Result<(Held, &'a [u8]), Stop>
    ensures { Gives (λ x. (x.0, x.1.now)) result (first_code constants.now held.code held.attributes bytes.now rest.now) }
{
    match held.code {
        Some(_) => Err(fault(ClassKind::Twice, bytes)),
        None => {
            let (code, rest) = code_attribute(alloc, constants, rest)?;
            let held = Held {
                code: Some(code),
                attributes: held.attributes,
            };
            Ok((held, rest))
        }
    }
}

fn keep(held: Held, name: u16, content: Bytes) -> Result<Held, AllocError>
    ensures { IfOk result (λ more. more ≡ kept held (record { name = name; content = content })) }
{
    let mut held = held;
    held.attributes.push(Attribute { name, content })?;
    Ok(held)
}
