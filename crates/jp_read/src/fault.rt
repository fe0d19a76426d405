ghost use Rattle.std.specs.Prelude.{◌≡◌};
ghost use Rattle.jp_read.specs.Faults.{of_lexer, of_parser, syntax_at};

use jp_ast::Place;
use jp_grammar::ParseFault;
use jp_lexer::LexErr;
use jp_lexical::LexFault;
use jp_pred::Name;

/// Why no unit goes on with a token.
#[derive(Debug, Drop)]
pub enum SyntaxKind {
    /// No unit goes on with it.
    Unexpected,
    /// No unit goes on with it, which is this word that is reserved but has no use in the language.
    Outside(Name),
    /// Only units with a tree that is more than 200 deep go on with it.
    TooDeep,
}

/// The first token of a text with which no unit goes on, and why. Where all tokens go on, it is the end of the text.
#[derive(Debug, Drop)]
pub struct SyntaxFault {
    pub place: Place,
    pub kind: SyntaxKind,
}

/// Why a text is no unit.
#[derive(Debug, Drop)]
pub enum ReadFault {
    /// The text has no tokens, and this is its first lexical fault.
    Lex(LexFault),
    /// The text has tokens, and this is where they stop to be a unit.
    Parse(SyntaxFault),
    /// There was too little memory.
    OutOfMemory,
}

impl From<LexErr> for ReadFault {
    ghost from_gives = { λ e fault. fault ≡ of_lexer e };

    fn from(err: LexErr) -> ReadFault {
        match err {
            LexErr::Fault(fault) => ReadFault::Lex(fault),
            LexErr::OutOfMemory => ReadFault::OutOfMemory,
        }
    }
}

impl From<ParseFault> for ReadFault {
    ghost from_gives = { λ e fault. fault ≡ of_parser e };

    fn from(fault: ParseFault) -> ReadFault {
        match fault {
            ParseFault::Unexpected { place } => syntax(place, SyntaxKind::Unexpected),
            ParseFault::Outside { place, word } => syntax(place, SyntaxKind::Outside(word)),
            ParseFault::TooDeep { place } => syntax(place, SyntaxKind::TooDeep),
            ParseFault::OutOfMemory => ReadFault::OutOfMemory,
        }
    }
}

/// The fault of this kind at the place.
fn syntax(place: Place, kind: SyntaxKind) -> ReadFault
    ensures { result ≡ syntax_at place kind }
{
    ReadFault::Parse(SyntaxFault { place, kind })
}
