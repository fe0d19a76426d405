//! What the check of a unit says of a text.

use anyhow::{Result, bail};
use jp_ast::Place;
use jp_lexical::LexKind;
use jp_read::SyntaxKind;
use std::alloc::Global;
use std::str;
use unit_check::{CheckErr, check_text};
use unit_faults::Refusal;
use unit_limits::{Limit, TooLarge};

/// `ok`, or why the text is refused.
pub(crate) fn answer(alloc: Global, text: &str) -> Result<String> {
    match check_text(alloc, text.as_bytes()) {
        Ok(_) => Ok(String::from_str(alloc, "ok")?),
        Err(CheckErr::Refused(refusal)) => told(alloc, &refusal),
        Err(CheckErr::OutOfMemory) => bail!("want of memory"),
    }
}

fn told(alloc: Global, refusal: &Refusal) -> Result<String> {
    match refusal {
        Refusal::Lex(fault) => at(alloc, fault.place, kind_name(fault.kind)),
        Refusal::Syntax(fault) => of_syntax(alloc, fault.place, &fault.kind),
        Refusal::TooLarge(over) => of_limit(alloc, over),
        Refusal::Type(fault) => {
            let rule = fault.rule;
            let broken = format!(in alloc; "Rule {rule}")?;
            at(alloc, fault.place, broken.as_str())
        }
        Refusal::NotYet(place) => at(alloc, *place, "NotYet"),
    }
}

fn of_syntax(alloc: Global, place: Place, kind: &SyntaxKind) -> Result<String> {
    match kind {
        SyntaxKind::Unexpected => at(alloc, place, "Unexpected"),
        SyntaxKind::TooDeep => at(alloc, place, "TooDeep"),
        SyntaxKind::Outside(word) => {
            let word = str::from_utf8(word.bytes())?;
            let outside = format!(in alloc; "Outside {word}")?;
            at(alloc, place, outside.as_str())
        }
    }
}

/// `TooLarge WHAT COUNT`.
fn of_limit(alloc: Global, over: &TooLarge) -> Result<String> {
    let what = limit_name(over.limit);
    let count = over.count;
    Ok(format!(in alloc; "TooLarge {what} {count}")?)
}

fn kind_name(kind: LexKind) -> &'static str {
    match kind {
        LexKind::BadByte => "BadByte",
        LexKind::BadNumber => "BadNumber",
        LexKind::OpenText => "OpenText",
        LexKind::LongName => "LongName",
    }
}

fn limit_name(limit: Limit) -> &'static str {
    match limit {
        Limit::UnitBytes => "UnitBytes",
        Limit::Text => "Text",
        Limit::Parameters => "Parameters",
        Limit::Aliases => "Aliases",
        Limit::Locals => "Locals",
        Limit::BodyNodes => "BodyNodes",
        Limit::ClassNodes => "ClassNodes",
    }
}

/// `LINE:COLUMN: FAULT`.
fn at(alloc: Global, place: Place, fault: &str) -> Result<String> {
    let Place { line, col } = place;
    Ok(format!(in alloc; "{line}:{col}: {fault}")?)
}
