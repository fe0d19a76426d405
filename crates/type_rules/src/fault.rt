use jp_ast::Place;

/// A rule that is broken, by its number, and where.
#[derive(Clone, Copy, Debug, PartialEq, Eq)]
pub struct TypeFault {
    pub place: Place,
    pub rule: u8,
}
