ghost use Rattle.std.specs.Prelude.{◌≡◌, ◌-◌, ◌≤◌, true, length};
ghost use Rattle.std.specs.List.{prefix_len};
ghost use Rattle.class_form.specs.WellFormed.{is_text_byte, is_wide, constant_size};
ghost use Rattle.class_form.specs.declared.constant.Const.TheVariants.{Fieldref, Methodref, InterfaceMethodref, NameAndType};
ghost use Rattle.class_reader.specs.Fields.{Gives};
ghost use Rattle.class_reader.specs.Reading.{text_run, text_at, pair_at, tagged_at, constant_at, entry_at, entries_at, bad_one, bad_pair, bad_index, bad_index_among, pool_at};

use crate::fault::{ClassKind, Defect, Stop};
use crate::fields::{fault, file_edge, run, u2, u4, u8};
use class_form::{Bytes, Const, names_class, names_name_and_type, names_utf8};
use sqlite_items::Items;
use std::alloc::Global;

/// The constants (JVM specification, second edition, 4.4), and the bytes behind them.
#[tactic(auto, unfolding(crate::specs::Reading::pool_at))]
pub(crate) fn pool(alloc: Global, bytes: &[u8]) -> Result<(Items<Const>, &[u8]), Stop>
    ensures { Gives (λ x. (x.0, x.1.now)) result (pool_at bytes.now) }
{
    let (count, rest) = u2(file_edge(), bytes)?;
    let (constants, after) = entries(alloc, count, rest)?;
    match bad_index_among(constants.as_slice(), rest.len()) {
        Some(left) => Err(Stop::Fault(Defect {
            kind: ClassKind::Index,
            left,
        })),
        None => Ok((constants, after)),
    }
}

fn entries(alloc: Global, count: u16, bytes: &[u8]) -> Result<(Items<Const>, &[u8]), Stop>
    ensures { Gives (λ x. (x.0, x.1.now)) result (entries_at true count bytes.now) }
{
    let mut constants = Items::new(alloc);
    let mut rest = bytes;
    let mut behind = true;
    for i in 0..count {
        let more = count - (i + 1);
        let (constant, after) = entry(alloc, behind, more == 0, rest)?;
        behind = is_wide(&constant);
        constants.push(constant)?;
        rest = after;
    }
    Ok((constants, rest))
}

fn is_wide(constant: &Const) -> bool
    ensures { result ≡ is_wide constant.now }
{
    matches!(constant, Const::Long(_) | Const::Double(_))
}

fn entry(alloc: Global, behind: bool, is_last: bool, bytes: &[u8]) -> Result<(Const, &[u8]), Stop>
    ensures { Gives (λ x. (x.0, x.1.now)) result (entry_at behind is_last bytes.now) }
{
    if behind {
        Ok((Const::Unused, bytes))
    } else {
        next_constant(alloc, is_last, bytes)
    }
}

#[tactic(auto, unfolding(crate::specs::Reading::constant_at))]
fn next_constant(alloc: Global, is_last: bool, bytes: &[u8]) -> Result<(Const, &[u8]), Stop>
    ensures { Gives (λ x. (x.0, x.1.now)) result (constant_at is_last bytes.now) }
{
    match bytes {
        [] => Err(fault(ClassKind::Truncated, bytes)),
        [tag, rest @ ..] => tagged(alloc, is_last, *tag, rest, bytes),
    }
}

#[tactic(auto, unfolding(crate::specs::Reading::tagged_at))]
fn tagged<'a>(
    alloc: Global,
    is_last: bool,
    tag: u8,
    rest: &'a [u8],
    bytes: &[u8],
) -> Result<(Const, &'a [u8]), Stop>
    ensures { Gives (λ x. (x.0, x.1.now)) result (tagged_at is_last tag rest.now bytes.now) }
{
    match tag {
        1 => {
            let (text, rest) = text(alloc, rest)?;
            Ok((Const::Utf8(text), rest))
        }
        3 => {
            let (n, rest) = u4(file_edge(), rest)?;
            Ok((Const::Integer(n.cast_signed()), rest))
        }
        4 => {
            let (bits, rest) = u4(file_edge(), rest)?;
            Ok((Const::Float(bits), rest))
        }
        5 => {
            if is_last {
                return Err(fault(ClassKind::Tag, bytes));
            }
            let (n, rest) = u8(file_edge(), rest)?;
            Ok((Const::Long(n.cast_signed()), rest))
        }
        6 => {
            if is_last {
                return Err(fault(ClassKind::Tag, bytes));
            }
            let (bits, rest) = u8(file_edge(), rest)?;
            Ok((Const::Double(bits), rest))
        }
        7 => {
            let (name, rest) = u2(file_edge(), rest)?;
            Ok((Const::Class(name), rest))
        }
        8 => {
            let (text, rest) = u2(file_edge(), rest)?;
            Ok((Const::Text(text), rest))
        }
        9 => fieldref(rest),
        10 => methodref(rest),
        11 => interface_methodref(rest),
        12 => name_and_type(rest),
        _ => Err(fault(ClassKind::Tag, bytes)),
    }
}

#[tactic(auto, unfolding(crate::specs::Reading::pair_at))]
fn fieldref(bytes: &[u8]) -> Result<(Const, &[u8]), Stop>
    ensures { Gives (λ x. (x.0, x.1.now)) result (pair_at Fieldref bytes.now) }
{
    let (class, rest) = u2(file_edge(), bytes)?;
    let (name, rest) = u2(file_edge(), rest)?;
    Ok((Const::Fieldref(class, name), rest))
}

#[tactic(auto, unfolding(crate::specs::Reading::pair_at))]
fn methodref(bytes: &[u8]) -> Result<(Const, &[u8]), Stop>
    ensures { Gives (λ x. (x.0, x.1.now)) result (pair_at Methodref bytes.now) }
{
    let (class, rest) = u2(file_edge(), bytes)?;
    let (name, rest) = u2(file_edge(), rest)?;
    Ok((Const::Methodref(class, name), rest))
}

#[tactic(auto, unfolding(crate::specs::Reading::pair_at))]
fn interface_methodref(bytes: &[u8]) -> Result<(Const, &[u8]), Stop>
    ensures { Gives (λ x. (x.0, x.1.now)) result (pair_at InterfaceMethodref bytes.now) }
{
    let (class, rest) = u2(file_edge(), bytes)?;
    let (name, rest) = u2(file_edge(), rest)?;
    Ok((Const::InterfaceMethodref(class, name), rest))
}

#[tactic(auto, unfolding(crate::specs::Reading::pair_at))]
fn name_and_type(bytes: &[u8]) -> Result<(Const, &[u8]), Stop>
    ensures { Gives (λ x. (x.0, x.1.now)) result (pair_at NameAndType bytes.now) }
{
    let (name, rest) = u2(file_edge(), bytes)?;
    let (descriptor, rest) = u2(file_edge(), rest)?;
    Ok((Const::NameAndType(name, descriptor), rest))
}

#[tactic(auto, unfolding(crate::specs::Reading::text_at))]
fn text(alloc: Global, bytes: &[u8]) -> Result<(Bytes, &[u8]), Stop>
    ensures { Gives (λ x. (x.0, x.1.now)) result (text_at bytes.now) }
{
    let (count, rest) = u2(file_edge(), bytes)?;
    let (text, rest) = text_bytes(count as usize, rest)?;
    Ok((Bytes::from_bytes(alloc, text)?, rest))
}

// The bytes of a text, all of which have to be right.
fn text_bytes(count: usize, bytes: &[u8]) -> Result<(&[u8], &[u8]), Stop>
    ensures { Gives (λ x. (x.0.now, x.1.now)) result (text_run count bytes.now) }
{
    let there = &bytes[..count.min(bytes.len())];
    let right = right_bytes(there);
    if right < there.len() {
        return Err(fault(ClassKind::Utf8, &bytes[right..]));
    }
    run(file_edge(), count, bytes)
}

// How many bytes stand before the first that a text may not have.
fn right_bytes(text: &[u8]) -> usize
    ensures counted { result ≡ prefix_len is_text_byte text.now }
    ensures within { result ≤ length text.now }
{
    let mut count = 0;
    for byte in text {
        if *byte == 0 || *byte >= 240 {
            return count;
        }
        count += 1;
    }
    count
}

// How many bytes are left at the first index of the wrong kind, where `left` are from the first constant on.
#[tactic(auto, unfolding(crate::specs::Reading::bad_index_among))]
fn bad_index_among(constants: &[Const], left: usize) -> Option<usize>
    ensures { result ≡ bad_index_among constants.now constants.now left }
{
    let mut left = left;
    for constant in constants {
        if let Some(into) = bad_index(constants, constant) {
            return Some(left.saturating_sub(into));
        }
        left = left_behind(left, constant);
    }
    None
}

// How many bytes into the constant its first index of the wrong kind stands.
fn bad_index(constants: &[Const], constant: &Const) -> Option<usize>
    ensures { result ≡ bad_index constants.now constant.now }
{
    match constant {
        Const::Class(text) | Const::Text(text) => bad_one(names_utf8(constants, *text)),
        Const::Fieldref(class, name)
        | Const::Methodref(class, name)
        | Const::InterfaceMethodref(class, name) => bad_pair(
            names_class(constants, *class),
            names_name_and_type(constants, *name),
        ),
        Const::NameAndType(name, descriptor) => bad_pair(
            names_utf8(constants, *name),
            names_utf8(constants, *descriptor),
        ),
        _ => None,
    }
}

fn bad_one(is_right: bool) -> Option<usize>
    ensures { result ≡ bad_one is_right }
{
    if is_right { None } else { Some(1) }
}

fn bad_pair(first: bool, second: bool) -> Option<usize>
    ensures { result ≡ bad_pair first second }
{
    match (first, second) {
        (false, _) => Some(1),
        (true, false) => Some(3),
        (true, true) => None,
    }
}

// How many bytes are left behind a constant.
fn left_behind(left: usize, constant: &Const) -> usize
    ensures { result ≡ left - constant_size constant.now }
{
    match constant {
        Const::Unused => left,
        Const::Utf8(text) => left.saturating_sub(3).saturating_sub(text.bytes().len()),
        Const::Class(_) | Const::Text(_) => left.saturating_sub(3),
        Const::Long(_) | Const::Double(_) => left.saturating_sub(9),
        Const::Integer(_)
        | Const::Float(_)
        | Const::Fieldref(_, _)
        | Const::Methodref(_, _)
        | Const::InterfaceMethodref(_, _)
        | Const::NameAndType(_, _) => left.saturating_sub(5),
    }
}
