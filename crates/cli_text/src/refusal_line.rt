//! The line of a refusal: where its fault stands, and of which kind it is.

ghost use Rattle.std.specs.Prelude.{◌≡◌, ◌++◌, OnOk, codes, decimal};
ghost use Rattle.std.specs.Io.KnownBytes.{append_known};
ghost use Rattle.jp_outside.specs.Faults.{HasCause};
ghost use Rattle.jp_outside.specs.Bytes.{AppendsFront};
ghost use Rattle.cli_text.specs.Lines.{joined, place_of, lexical_word, syntax_words, kind_words, line, refusal_text};

use crate::Refusal;
use crate::writing::write_parts;
use itoa::Buffer;
use jp_ast::Place;
use jp_lexical::LexKind;
use jp_outside::{Failed, Sink};
use jp_read::SyntaxKind;

/// Writes `UNIT:LINE:COLUMN: KIND` as a line.
pub(crate) fn write_refusal<D: Sink>(
    diag: &mut D,
    unit: &[u8],
    refusal: &Refusal,
) -> Result<(), Failed>
    ensures whole { OnOk result (D.taken diag.new ≡ append_known (D.taken diag.old) (line (refusal_text unit.now refusal.now))) }
    ensures front { AppendsFront (D.taken diag.old) (D.taken diag.new) (line (refusal_text unit.now refusal.now)) }
    ensures cause { HasCause (D.faults diag.old) (D.faults diag.new) result }
{
    let (kind, word) = kind_words(refusal);
    write_place(diag, unit, place_of(refusal))?;
    write_parts(diag, kind, word, b"\n")
}

/// Writes `UNIT:LINE:COLUMN: `.
fn write_place<D: Sink>(diag: &mut D, unit: &[u8], place: Place) -> Result<(), Failed>
    ensures whole { OnOk result (D.taken diag.new ≡ append_known (D.taken diag.old)
        (unit.now ++ codes ":" ++ decimal place.line ++ codes ":" ++ decimal place.col ++ codes ": ")) }
    ensures front { AppendsFront (D.taken diag.old) (D.taken diag.new)
        (unit.now ++ codes ":" ++ decimal place.line ++ codes ":" ++ decimal place.col ++ codes ": ") }
    ensures cause { HasCause (D.faults diag.old) (D.faults diag.new) result }
{
    let mut digits = Buffer::new();
    write_parts(diag, unit, b":", digits.format(place.line).as_bytes())?;
    write_parts(diag, b":", digits.format(place.col).as_bytes(), b": ")
}

/// Where the fault stands.
fn place_of(refusal: &Refusal) -> Place
    ensures { result ≡ place_of refusal.now }
{
    match refusal {
        Refusal::Lex(fault) => fault.place,
        Refusal::Syntax(fault) => fault.place,
        Refusal::NotYet(place) => *place,
    }
}

/// The word for the kind of a refusal, and the outside word that stands behind it, if one does.
fn kind_words(refusal: &Refusal) -> (&[u8], &[u8])
    ensures { joined (kind_words refusal.now) ≡ result.0.now ++ result.1.now }
{
    match refusal {
        Refusal::Lex(fault) => (lexical_word(fault.kind), b""),
        Refusal::Syntax(fault) => syntax_words(&fault.kind),
        Refusal::NotYet(_) => (b"NotYet", b""),
    }
}

fn lexical_word(kind: LexKind) -> &'static [u8]
    ensures { result.now ≡ lexical_word kind }
{
    match kind {
        LexKind::BadByte => b"BadByte",
        LexKind::BadNumber => b"BadNumber",
        LexKind::OpenText => b"OpenText",
        LexKind::LongName => b"LongName",
    }
}

fn syntax_words(kind: &SyntaxKind) -> (&[u8], &[u8])
    ensures { joined (syntax_words kind.now) ≡ result.0.now ++ result.1.now }
{
    match kind {
        SyntaxKind::Unexpected => (b"Unexpected", b""),
        SyntaxKind::Outside(word) => (b"Outside ", word.bytes()),
        SyntaxKind::TooDeep => (b"TooDeep", b""),
    }
}
