ghost use Rattle.std.specs.Prelude.{◌≡◌};
ghost use Rattle.class_form.specs.WellFormed.{names, is_utf8, is_class};
ghost use Rattle.class_reader.specs.declared.fault.Stop.TheVariants.{Fault};
ghost use Rattle.class_reader.specs.Fields.{Gives, fault, file_edge, u2_at, u4_at, u8_at, run_at, index_at};

use crate::fault::{ClassKind, Defect, Stop};
use class_form::{Const, names_class, names_utf8};

// How many bytes are left where the bytes end that may be read, and the fault of wanting more.
#[derive(Clone, Copy, Debug, PartialEq, Eq)]
pub(crate) struct Edge {
    pub left: usize,
    pub short: Defect,
}

// The end of the file.
pub(crate) fn file_edge() -> Edge
    ensures { result ≡ file_edge }
{
    Edge {
        left: 0,
        short: Defect {
            kind: ClassKind::Truncated,
            left: 0,
        },
    }
}

// The fault at the first of these bytes.
pub(crate) fn fault(kind: ClassKind, bytes: &[u8]) -> Stop
    ensures { result ≡ Fault (fault kind bytes.now) }
{
    Stop::Fault(Defect {
        kind,
        left: bytes.len(),
    })
}

#[tactic(auto, unfolding(crate::specs::Fields::u2_at))]
pub(crate) fn u2(edge: Edge, bytes: &[u8]) -> Result<(u16, &[u8]), Stop>
    ensures { Gives (λ x. (x.0, x.1.now)) result (u2_at edge bytes.now) }
{
    if bytes.len().saturating_sub(edge.left) < 2 {
        return Err(Stop::Fault(edge.short));
    }
    let (front, rest) = bytes.split_at(2);
    Ok((u16::from_be_bytes([front[0], front[1]]), rest))
}

#[tactic(auto, unfolding(crate::specs::Fields::u4_at))]
pub(crate) fn u4(edge: Edge, bytes: &[u8]) -> Result<(u32, &[u8]), Stop>
    ensures { Gives (λ x. (x.0, x.1.now)) result (u4_at edge bytes.now) }
{
    if bytes.len().saturating_sub(edge.left) < 4 {
        return Err(Stop::Fault(edge.short));
    }
    let (front, rest) = bytes.split_at(4);
    let number = u32::from_be_bytes([front[0], front[1], front[2], front[3]]);
    Ok((number, rest))
}

#[tactic(auto, unfolding(crate::specs::Fields::u8_at))]
pub(crate) fn u8(edge: Edge, bytes: &[u8]) -> Result<(u64, &[u8]), Stop>
    ensures { Gives (λ x. (x.0, x.1.now)) result (u8_at edge bytes.now) }
{
    if bytes.len().saturating_sub(edge.left) < 8 {
        return Err(Stop::Fault(edge.short));
    }
    let (front, rest) = bytes.split_at(8);
    let number = u64::from_be_bytes([
        front[0], front[1], front[2], front[3], front[4], front[5], front[6], front[7],
    ]);
    Ok((number, rest))
}

// This many bytes, and those behind them.
#[tactic(auto, unfolding(crate::specs::Fields::run_at))]
pub(crate) fn run(edge: Edge, count: usize, bytes: &[u8]) -> Result<(&[u8], &[u8]), Stop>
    ensures { Gives (λ x. (x.0.now, x.1.now)) result (run_at edge count bytes.now) }
{
    if bytes.len().saturating_sub(edge.left) < count {
        return Err(Stop::Fault(edge.short));
    }
    Ok(bytes.split_at(count))
}

// The index of a text.
#[tactic(auto, unfolding(crate::specs::Fields::index_at))]
pub(crate) fn text_index<'a>(
    edge: Edge,
    constants: &[Const],
    bytes: &'a [u8],
) -> Result<(u16, &'a [u8]), Stop>
    ensures { Gives (λ x. (x.0, x.1.now)) result (index_at edge (names is_utf8 constants.now) bytes.now) }
{
    let (index, rest) = u2(edge, bytes)?;
    if !names_utf8(constants, index) {
        return Err(fault(ClassKind::Index, bytes));
    }
    Ok((index, rest))
}

// The index of a class.
#[tactic(auto, unfolding(crate::specs::Fields::index_at))]
pub(crate) fn class_index<'a>(constants: &[Const], bytes: &'a [u8]) -> Result<(u16, &'a [u8]), Stop>
    ensures { Gives (λ x. (x.0, x.1.now)) result (index_at file_edge (names is_class constants.now) bytes.now) }
{
    let (index, rest) = u2(file_edge(), bytes)?;
    if !names_class(constants, index) {
        return Err(fault(ClassKind::Index, bytes));
    }
    Ok((index, rest))
}
