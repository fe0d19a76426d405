use crate::TypedExpr;
use jp_ast::Place;
use jp_pred::Ty;
use sqlite_items::{Boxed, Items};

/// A statement with its names resolved.
#[derive(Debug, Drop)]
#[cycle(stmt)]
pub struct TypedStmt {
    pub place: Place,
    pub kind: TypedStmtKind,
}

/// The kinds of statements. A sign is numbered as in `Lexeme::Sign`.
#[derive(Debug, Drop)]
#[cycle(stmt)]
pub enum TypedStmtKind {
    Block(Items<TypedStmt>),
    Empty,
    /// A declaration of a local, by its slot.
    Local {
        slot: u8,
        ty: Ty,
        value: Option<TypedExpr>,
    },
    If {
        test: TypedExpr,
        yes: Boxed<TypedStmt>,
        no: Option<Boxed<TypedStmt>>,
    },
    While {
        test: TypedExpr,
        body: Boxed<TypedStmt>,
    },
    For {
        init: Option<Boxed<TypedStmt>>,
        test: Option<TypedExpr>,
        change: Option<Boxed<TypedStmt>>,
        body: Boxed<TypedStmt>,
    },
    Break,
    Continue,
    Return(Option<TypedExpr>),
    /// `left = right`, `left += right` or `left -= right`.
    Assign {
        left: TypedExpr,
        sign: u8,
        right: TypedExpr,
    },
    /// `left++` where `up`, else `left--`.
    Bump {
        left: TypedExpr,
        up: bool,
    },
    /// An expression that is a statement.
    Run(TypedExpr),
}
