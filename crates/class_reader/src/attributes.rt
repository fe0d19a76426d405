ghost use Rattle.std.specs.Prelude.{◌≡◌};
ghost use Rattle.class_reader.specs.Fields.{Gives, many_at};
ghost use Rattle.class_reader.specs.Reading.{content_at, attribute_at, attributes_at, code_run, handlers_at, parts_at, code_edge, code_at};

use crate::fault::{ClassKind, Defect, Stop};
use crate::fields::{Edge, fault, file_edge, run, text_index, u2, u4};
use class_form::{Attribute, Bytes, Code, Const};
use sqlite_items::Items;
use std::alloc::Global;

/// A list of attributes (JVM specification, second edition, 4.7), and the bytes behind it.
#[tactic(auto, unfolding(crate::specs::Reading::attributes_at))]
pub(crate) fn attributes<'a>(
    alloc: Global,
    edge: Edge,
    constants: &[Const],
    bytes: &'a [u8],
) -> Result<(Items<Attribute>, &'a [u8]), Stop>
    ensures { Gives (λ x. (x.0, x.1.now)) result (attributes_at edge constants.now bytes.now) }
{
    let (count, rest) = u2(edge, bytes)?;
    many_attributes(alloc, edge, constants, count, rest)
}

fn many_attributes<'a>(
    alloc: Global,
    edge: Edge,
    constants: &[Const],
    count: u16,
    bytes: &'a [u8],
) -> Result<(Items<Attribute>, &'a [u8]), Stop>
    ensures { Gives (λ x. (x.0, x.1.now)) result (many_at (attribute_at edge constants.now) count bytes.now) }
{
    let mut attributes = Items::new(alloc);
    let mut rest = bytes;
    for _ in 0..count {
        let (found, after) = one_attribute(alloc, edge, constants, rest)?;
        attributes.push(found)?;
        rest = after;
    }
    Ok((attributes, rest))
}

#[tactic(auto, unfolding(crate::specs::Reading::attribute_at))]
fn one_attribute<'a>(
    alloc: Global,
    edge: Edge,
    constants: &[Const],
    bytes: &'a [u8],
) -> Result<(Attribute, &'a [u8]), Stop>
    ensures { Gives (λ x. (x.0, x.1.now)) result (attribute_at edge constants.now bytes.now) }
{
    let (name, rest) = text_index(edge, constants, bytes)?;
    let (content, rest) = content(alloc, edge, rest)?;
    Ok((Attribute { name, content }, rest))
}

/// What an attribute holds, behind its length.
#[tactic(auto, unfolding(crate::specs::Reading::content_at))]
pub(crate) fn content(alloc: Global, edge: Edge, bytes: &[u8]) -> Result<(Bytes, &[u8]), Stop>
    ensures { Gives (λ x. (x.0, x.1.now)) result (content_at edge bytes.now) }
{
    let (size, rest) = u4(edge, bytes)?;
    let (found, rest) = run(edge, size as usize, rest)?;
    Ok((Bytes::from_bytes(alloc, found)?, rest))
}

/// The attribute `Code` from its length on (4.7.3): its parts have to fill that length.
#[tactic(auto, unfolding(crate::specs::Reading::code_at))]
pub(crate) fn code_attribute<'a>(
    alloc: Global,
    constants: &[Const],
    bytes: &'a [u8],
) -> Result<(Code, &'a [u8]), Stop>
    ensures { Gives (λ x. (x.0, x.1.now)) result (code_at constants.now bytes.now) }
{
    let (size, body) = u4(file_edge(), bytes)?;
    let size = size as usize;
    let (code, rest) = parts(alloc, code_edge(bytes, size, body), constants, body)?;
    if rest.len() + size != body.len() {
        return Err(fault(ClassKind::Length, bytes));
    }
    Ok((code, rest))
}

// Where the parts end at the latest.
fn code_edge(field: &[u8], size: usize, body: &[u8]) -> Edge
    ensures { result ≡ code_edge field.now size body.now }
{
    if size <= body.len() {
        Edge {
            left: body.len() - size,
            short: Defect {
                kind: ClassKind::Length,
                left: field.len(),
            },
        }
    } else {
        file_edge()
    }
}

#[tactic(auto, unfolding(crate::specs::Reading::parts_at))]
fn parts<'a>(
    alloc: Global,
    edge: Edge,
    constants: &[Const],
    bytes: &'a [u8],
) -> Result<(Code, &'a [u8]), Stop>
    ensures { Gives (λ x. (x.0, x.1.now)) result (parts_at edge constants.now bytes.now) }
{
    let (max_stack, rest) = u2(edge, bytes)?;
    let (max_locals, rest) = u2(edge, rest)?;
    let (bytes, rest) = code_bytes(alloc, edge, rest)?;
    let rest = no_handlers(edge, rest)?;
    let (attributes, rest) = attributes(alloc, edge, constants, rest)?;
    let code = Code {
        max_stack,
        max_locals,
        bytes,
        attributes,
    };
    Ok((code, rest))
}

#[tactic(auto, unfolding(crate::specs::Reading::code_run))]
fn code_bytes(alloc: Global, edge: Edge, bytes: &[u8]) -> Result<(Bytes, &[u8]), Stop>
    ensures { Gives (λ x. (x.0, x.1.now)) result (code_run edge bytes.now) }
{
    let (size, rest) = u4(edge, bytes)?;
    if size == 0 || size >= 65536 {
        return Err(fault(ClassKind::Length, bytes));
    }
    let (found, rest) = run(edge, size as usize, rest)?;
    Ok((Bytes::from_bytes(alloc, found)?, rest))
}

// The bytes behind an exception table that is empty.
#[tactic(auto, unfolding(crate::specs::Reading::handlers_at))]
fn no_handlers(edge: Edge, bytes: &[u8]) -> Result<&[u8], Stop>
    ensures { Gives (λ rest. rest.now) result (handlers_at edge bytes.now) }
{
    let (count, rest) = u2(edge, bytes)?;
    if count != 0 {
        return Err(fault(ClassKind::Handlers, bytes));
    }
    Ok(rest)
}
