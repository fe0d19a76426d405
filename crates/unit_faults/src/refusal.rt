use jp_ast::Place;
use jp_lexical::LexFault;
use jp_read::SyntaxFault;
use type_rules::TypeFault;
use unit_limits::TooLarge;

/// Why a unit is refused: the first of these that is so, in this order, but for the bytes of the text, which are counted
/// before all, and for classes outside the unit, which are looked for as soon as it is read.
#[derive(Debug, Drop)]
pub enum Refusal {
    /// The text has no tokens, and this is its first lexical fault.
    Lex(LexFault),
    /// The text has tokens, and this is the first one with which no unit goes on.
    Syntax(SyntaxFault),
    /// The text, or the unit, has more of something than a unit may have.
    TooLarge(TooLarge),
    /// The unit breaks a rule of types, first at this place.
    Type(TypeFault),
    /// The unit can't be run yet: it names a class outside itself, first at this place; or it breaks no rule, and this is the
    /// place of the first node, in the order of the text, that the form of units that run lacks.
    NotYet(Place),
}
