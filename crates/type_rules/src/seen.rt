use jp_meaning::TypedExpr;
use jp_pred::Name;
use sqlite_items::Boxed;

/// In what role an expression stands.
#[derive(Clone, Copy, Debug, PartialEq, Eq)]
pub enum Role {
    /// Its value is wanted.
    Operand,
    /// Directly behind a minus sign.
    Negated,
    /// Directly before a dot.
    BeforeDot,
    /// The argument of `Io.text`.
    Shown,
    /// A statement of its own.
    Alone,
}

/// A resolved expression, whether it has the type of `null`, and whether it is a local, parameter, alias, field or
/// element, which can be changed.
#[derive(Debug, Drop)]
pub struct Known {
    pub is_null: bool,
    pub is_variable: bool,
    pub expr: Boxed<TypedExpr>,
}

/// What is seen of an expression from outside it.
#[derive(Debug, Drop)]
pub enum Seen {
    /// There is a fault in it, and so it has no type.
    Faulty,
    Value(Known),
    /// The name of a class before a dot.
    Class(Name),
    /// A text literal as the argument of `Io.text`.
    Text(Name),
}
