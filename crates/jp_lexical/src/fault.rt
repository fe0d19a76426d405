use jp_ast::Place;

/// Why no token begins at a place.
#[derive(Clone, Copy, Debug, PartialEq, Eq)]
pub enum LexKind {
    /// A byte that begins nothing.
    BadByte,
    /// A digit that begins no number, a number that a letter, a digit or `_` directly follows, or one that is too large.
    BadNumber,
    /// A text or a block comment that isn't closed, or a text that holds something else than its letters and escapes.
    OpenText,
    /// A word of more than 255 bytes.
    LongName,
}

/// The first place of a text at which neither a token nor a gap begins, and why.
#[derive(Clone, Copy, Debug, PartialEq, Eq)]
pub struct LexFault {
    pub place: Place,
    pub kind: LexKind,
}
