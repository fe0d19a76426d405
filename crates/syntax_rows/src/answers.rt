//! What the lexer, the reader and the printer say of a text.

use crate::tree::{put_expr, put_guard, put_stmts, put_unit};
use crate::words::put_tokens;
use anyhow::{Context, Result, bail};
use jp_ast::{Expr, GuardExpr, MemberPart, Place, SourceUnit, Stmt, StmtKind};
use jp_lexer::lex;
use jp_lexical::LexKind;
use jp_print::print;
use jp_read::{ReadFault, SyntaxFault, SyntaxKind, read};
use std::alloc::Global;
use std::str;

/// What is answered of the text, where such an answer is wanted.
pub(crate) fn answer(alloc: Global, wanted: &str, text: &str) -> Result<String> {
    let sort = match wanted.split_once(' ') {
        Some((word, _)) => word,
        None => wanted,
    };
    match sort {
        "tokens" => tokens(alloc, text),
        "expression" => framed(alloc, sort, "class A { int f() { return ", text, "; } }"),
        "guard" => framed(alloc, sort, "class A { void f() when ", text, " { } }"),
        "statements" => framed(alloc, sort, "class A { void f() { ", text, " } }"),
        _ => framed(alloc, sort, "", text, ""),
    }
}

fn tokens(alloc: Global, text: &str) -> Result<String> {
    match lex(alloc, text.as_bytes()) {
        Ok(tokens) => {
            let mut out = String::from_str(alloc, "tokens")?;
            put_tokens(&mut out, tokens.as_slice())?;
            Ok(out)
        }
        Err(err) => told(alloc, &ReadFault::from(err)),
    }
}

/// What is answered of the text, between what makes a unit of it.
fn framed(alloc: Global, sort: &str, front: &str, text: &str, back: &str) -> Result<String> {
    let whole = format!(in alloc; "{front}{text}{back}")?;
    match read(alloc, whole.as_bytes()) {
        Ok(unit) => of_unit(alloc, sort, &unit),
        Err(fault) => told(alloc, &fault),
    }
}

fn of_unit(alloc: Global, sort: &str, unit: &SourceUnit) -> Result<String> {
    let mut out = String::from_str(alloc, sort)?;
    match sort {
        "expression" => put_expr(&mut out, value(unit).context("no value")?)?,
        "guard" => put_guard(&mut out, guard(unit).context("no guard")?)?,
        "statements" => put_stmts(&mut out, block(unit).context("no statements")?)?,
        "unit" => put_unit(&mut out, unit)?,
        _ => return reread(alloc, unit),
    }
    Ok(out)
}

/// What the first member of the unit is.
fn member_part(unit: &SourceUnit) -> Option<&MemberPart> {
    let decl = unit.decls.as_slice().first()?;
    let member = decl.members.as_slice().first()?;
    Some(&member.part)
}

fn guard(unit: &SourceUnit) -> Option<&GuardExpr> {
    match member_part(unit)? {
        MemberPart::Body {
            guard: Some(guard),
            ..
        } => Some(guard),
        _ => None,
    }
}

fn block(unit: &SourceUnit) -> Option<&[Stmt]> {
    match member_part(unit)? {
        MemberPart::Body { block, .. } => Some(block.as_slice()),
        _ => None,
    }
}

/// What the first statement returns.
fn value(unit: &SourceUnit) -> Option<&Expr> {
    match &block(unit)?.first()?.kind {
        StmtKind::Return(Some(value)) => Some(value),
        _ => None,
    }
}

/// `reads back`, where the printed unit reads as one that is printed alike.
fn reread(alloc: Global, unit: &SourceUnit) -> Result<String> {
    let printed = print(alloc, unit)?;
    let Ok(again) = read(alloc, &printed) else {
        bail!("a printed unit isn't read");
    };
    let twice = print(alloc, &again)?;
    let words = if twice.as_slice() == printed.as_slice() {
        "reads back"
    } else {
        "reads back as another unit"
    };
    Ok(String::from_str(alloc, words)?)
}

/// `LINE:COLUMN FAULT`.
fn told(alloc: Global, fault: &ReadFault) -> Result<String> {
    match fault {
        ReadFault::Lex(fault) => at(alloc, fault.place, kind_name(fault.kind), ""),
        ReadFault::Parse(SyntaxFault { place, kind }) => match kind {
            SyntaxKind::Unexpected => at(alloc, *place, "Unexpected", ""),
            SyntaxKind::TooDeep => at(alloc, *place, "TooDeep", ""),
            SyntaxKind::Outside(word) => at(
                alloc,
                *place,
                "Outside ",
                str::from_utf8(word.bytes())?,
            ),
        },
        ReadFault::OutOfMemory => bail!("want of memory"),
    }
}

fn kind_name(kind: LexKind) -> &'static str {
    match kind {
        LexKind::BadByte => "BadByte",
        LexKind::BadNumber => "BadNumber",
        LexKind::OpenText => "OpenText",
        LexKind::LongName => "LongName",
    }
}

fn at(alloc: Global, place: Place, kind: &str, word: &str) -> Result<String> {
    let Place { line, col } = place;
    Ok(format!(in alloc; "{line}:{col} {kind}{word}")?)
}
