use crate::{Expr, Place};
use jp_pred::{Name, Ty};
use sqlite_items::{Boxed, Items};

/// A statement, at the place of its first token.
#[derive(Debug, Drop)]
#[cycle(stmt)]
pub struct Stmt {
    pub place: Place,
    pub kind: StmtKind,
}

/// The kinds of statements. A sign is numbered as in `Lexeme::Sign`.
#[derive(Debug, Drop)]
#[cycle(stmt)]
pub enum StmtKind {
    Block(Items<Stmt>),
    Empty,
    Local {
        ty: Ty,
        name: Name,
        value: Option<Expr>,
    },
    If {
        test: Expr,
        yes: Boxed<Stmt>,
        no: Option<Boxed<Stmt>>,
    },
    While {
        test: Expr,
        body: Boxed<Stmt>,
    },
    For {
        init: Option<Boxed<Stmt>>,
        test: Option<Expr>,
        change: Option<Boxed<Stmt>>,
        body: Boxed<Stmt>,
    },
    Break,
    Continue,
    Return(Option<Expr>),
    /// `left = right`, `left += right` or `left -= right`.
    Assign {
        left: Expr,
        sign: u8,
        right: Expr,
    },
    /// `left++` where `up`, else `left--`.
    Bump {
        left: Expr,
        up: bool,
    },
    /// An expression that is a statement.
    Run(Expr),
}
