use jp_ast::Place;
use jp_pred::{Name, Path, Ty};
use sqlite_items::{Boxed, Items};

/// A path of a guard with its names resolved, its declared type, and the type that the tests before it give it.
#[derive(Debug, Drop)]
pub struct TypedPath {
    pub place: Place,
    pub path: Path,
    pub declared: Ty,
    pub ty: Ty,
}

/// A summand of a comparison: a number, a path, or a number times a path.
#[derive(Debug, Drop)]
pub struct TypedSummand {
    pub place: Place,
    pub negative: bool,
    pub factor: Option<(u32, bool)>,
    pub path: Option<TypedPath>,
}

/// A guard with its names resolved.
#[derive(Debug, Drop)]
#[cycle(guard)]
pub struct TypedGuard {
    pub place: Place,
    pub kind: TypedGuardKind,
}

/// The kinds of guards. A sign is numbered as in `Lexeme::Sign`.
#[derive(Debug, Drop)]
#[cycle(guard)]
pub enum TypedGuardKind {
    Truth(bool),
    Not(Boxed<TypedGuard>),
    And(Boxed<TypedGuard>, Boxed<TypedGuard>),
    Or(Boxed<TypedGuard>, Boxed<TypedGuard>),
    /// `path@class`, and the alias with its type where there is one.
    Is {
        path: TypedPath,
        class: Name,
        alias: Option<(Name, Ty)>,
    },
    /// `path as name`
    Alias {
        path: TypedPath,
        name: Name,
        ty: Ty,
    },
    /// `path == null` where `equal`, else `path != null`.
    NullTest {
        path: TypedPath,
        equal: bool,
    },
    /// A path that stands alone.
    Flag(TypedPath),
    Compare {
        left: Items<TypedSummand>,
        sign: u8,
        right: Items<TypedSummand>,
    },
}
