use jp_ast::Place;
use jp_lexical::LexFault;
use jp_read::SyntaxFault;

/// Why a unit is refused.
#[derive(Debug, Drop)]
pub enum Refusal {
    /// The text has no tokens, and this is its first lexical fault.
    Lex(LexFault),
    /// The text has tokens, and this is the first one with which no unit goes on.
    Syntax(SyntaxFault),
    /// The text is a unit, but no program of the form that can be run so far. The place is that of the first node, in
    /// the order of the text, that the form lacks.
    NotYet(Place),
}
