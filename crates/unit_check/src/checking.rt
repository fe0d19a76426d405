ghost use Rattle.unit_check.specs.Texts.{ChecksText};

use crate::CheckErr;
use jp_ast::SourceUnit;
use jp_meaning::TypedUnit;
use jp_read::read;
use own_names::first_outside;
use sqlite_items::Items;
use std::alloc::Global;
use type_decl::check;
use unit_faults::Refusal;
use unit_limits::{first_over, unit_bytes_over};

/// A unit within its limits that names no class outside itself and breaks no rule of types, as it is written, and its
/// resolved tree.
#[derive(Debug, Drop)]
pub struct Sound {
    pub unit: SourceUnit,
    pub tree: TypedUnit,
}

/// The unit of a text, with its resolved tree.
///
/// `Refused` comes exactly for other texts, with what is first so: `TooLarge` for a text of too many bytes; `Lex` for a
/// text without tokens, with its first lexical fault; `Syntax` where the tokens are no unit, with the first one with which
/// no unit goes on; `NotYet` for a unit that names in a type position a class which it doesn't declare and which isn't the
/// language's own, with the first place at which it does; `TooLarge` for a unit that passes a limit, with the first count
/// that does; and `Type` for a unit that breaks a rule of types, with its first fault. `OutOfMemory` comes where memory is
/// wanting.
#[tactic(auto, using(limit_laws::proofs::Fits::fits))]
pub fn check_text(alloc: Global, text: &[u8]) -> Result<Sound, CheckErr>
    ensures { ChecksText text.now result }
{
    if let Some(over) = unit_bytes_over(text.len()) {
        return Err(CheckErr::from(over));
    }
    let unit = read(alloc, text)?;
    if let Some(place) = first_outside(&unit) {
        return Err(CheckErr::Refused(Refusal::NotYet(place)));
    }
    if let Some(over) = first_over(&unit) {
        return Err(CheckErr::from(over));
    }
    let tree = check(alloc, &unit, Items::new(alloc))?;
    Ok(Sound { unit, tree })
}
