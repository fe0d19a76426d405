use jp_ast::Place;
use jp_pred::{Name, Ty};
use sqlite_items::{Boxed, Items};

/// An expression with its names resolved and its type. One with the type of `null` has the type `Object`.
#[derive(Debug, Drop)]
#[cycle(expr)]
pub struct TypedExpr {
    pub place: Place,
    pub ty: Ty,
    pub kind: TypedKind,
}

/// The kinds of expressions. A sign is numbered as in `Lexeme::Sign`. `params` are the types of the parameters with
/// which the called family, static method or constructor is declared.
#[derive(Debug, Drop)]
#[cycle(expr)]
pub enum TypedKind {
    Number {
        value: u32,
        hex: bool,
    },
    Truth(bool),
    Null,
    This,
    /// A parameter, an alias or a local, by its slot.
    Local(u8),
    Unary {
        sign: u8,
        right: Boxed<TypedExpr>,
    },
    Binary {
        sign: u8,
        left: Boxed<TypedExpr>,
        right: Boxed<TypedExpr>,
    },
    /// `test ? yes : no`
    Cond {
        test: Boxed<TypedExpr>,
        yes: Boxed<TypedExpr>,
        no: Boxed<TypedExpr>,
    },
    Cast {
        class: Name,
        value: Boxed<TypedExpr>,
    },
    InstanceOf {
        value: Boxed<TypedExpr>,
        class: Name,
    },
    /// A field of an object, with the class that declares it.
    Field {
        object: Boxed<TypedExpr>,
        class: Name,
        name: Name,
    },
    /// A static field, with the class that declares it.
    Static {
        class: Name,
        name: Name,
    },
    /// An array's length.
    Length(Boxed<TypedExpr>),
    Index {
        array: Boxed<TypedExpr>,
        index: Boxed<TypedExpr>,
    },
    /// A call of a family of the receiver's type.
    CallVirtual {
        object: Boxed<TypedExpr>,
        class: Name,
        is_interface: bool,
        name: Name,
        params: Items<Ty>,
        args: Items<TypedExpr>,
    },
    /// A call of a static method, with the class that declares it.
    CallStatic {
        class: Name,
        name: Name,
        params: Items<Ty>,
        args: Items<TypedExpr>,
    },
    /// A call of a family of the direct superclass.
    CallSuper {
        class: Name,
        name: Name,
        params: Items<Ty>,
        args: Items<TypedExpr>,
    },
    New {
        class: Name,
        params: Items<Ty>,
        args: Items<TypedExpr>,
    },
    /// An array of `size` elements of type `elem`.
    NewArray {
        elem: Ty,
        size: Boxed<TypedExpr>,
    },
    /// `Io.print(..)`
    Print(Boxed<TypedExpr>),
    /// `Io.text(..)`, with the literal's bytes.
    Show(Name),
    /// `Io.read()`
    Read,
}
