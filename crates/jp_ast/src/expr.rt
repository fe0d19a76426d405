use crate::Place;
use jp_pred::{Name, Ty};
use sqlite_items::{Boxed, Items};

/// An expression, at the place of its first token.
#[derive(Debug, Drop)]
#[cycle(expr)]
pub struct Expr {
    pub place: Place,
    pub kind: ExprKind,
}

/// The kinds of expressions. A sign is numbered as in `Lexeme::Sign`.
#[derive(Debug, Drop)]
#[cycle(expr)]
pub enum ExprKind {
    Number {
        value: u32,
        hex: bool,
    },
    Truth(bool),
    Null,
    Text(Name),
    This,
    Var(Name),
    Unary {
        sign: u8,
        right: Boxed<Expr>,
    },
    Binary {
        sign: u8,
        left: Boxed<Expr>,
        right: Boxed<Expr>,
    },
    /// `test ? yes : no`
    Cond {
        test: Boxed<Expr>,
        yes: Boxed<Expr>,
        no: Boxed<Expr>,
    },
    Cast {
        class: Name,
        value: Boxed<Expr>,
    },
    InstanceOf {
        value: Boxed<Expr>,
        class: Name,
    },
    Field {
        object: Boxed<Expr>,
        name: Name,
    },
    Index {
        array: Boxed<Expr>,
        index: Boxed<Expr>,
    },
    Call {
        object: Option<Boxed<Expr>>,
        name: Name,
        args: Items<Expr>,
    },
    SuperCall {
        name: Name,
        args: Items<Expr>,
    },
    New {
        class: Name,
        args: Items<Expr>,
    },
    /// An array of `size` elements of type `elem`.
    NewArray {
        elem: Ty,
        size: Boxed<Expr>,
    },
}
