use crate::Place;
use jp_pred::Name;
use sqlite_items::{Boxed, Items};

/// A path of a guard: `this` or a name, and the fields that are read from there on.
#[derive(Debug, Drop)]
pub struct PathText {
    pub place: Place,
    pub root: Name,
    pub steps: Items<Name>,
}

/// A summand of a comparison: a number, a path, or a number times a path. The factor is the number, with
/// whether it was written in hexadecimal digits.
#[derive(Debug, Drop)]
pub struct Summand {
    pub place: Place,
    pub negative: bool,
    pub factor: Option<(u32, bool)>,
    pub path: Option<PathText>,
}

/// A guard, at the place of its first token.
#[derive(Debug, Drop)]
#[cycle(guard)]
pub struct GuardExpr {
    pub place: Place,
    pub kind: GuardKind,
}

/// The kinds of guards. A sign is numbered as in `Lexeme::Sign`.
#[derive(Debug, Drop)]
#[cycle(guard)]
pub enum GuardKind {
    Truth(bool),
    Not(Boxed<GuardExpr>),
    And(Boxed<GuardExpr>, Boxed<GuardExpr>),
    Or(Boxed<GuardExpr>, Boxed<GuardExpr>),
    /// `path@class`, and the name behind `as` where there is one.
    Is {
        path: PathText,
        class: Name,
        alias: Option<Name>,
    },
    /// `path as name`
    Alias {
        path: PathText,
        name: Name,
    },
    /// `path == null` where `equal`, else `path != null`.
    NullTest {
        path: PathText,
        equal: bool,
    },
    /// A path that stands alone.
    Flag(PathText),
    Compare {
        left: Items<Summand>,
        sign: u8,
        right: Items<Summand>,
    },
}
