use crate::path::Path;
use crate::ty::Ty;
use sqlite_items::{Boxed, Items};

/// A summand of a row: a coefficient that isn't 0, times the number at a path.
#[derive(Debug, Drop)]
pub struct Term {
    pub coefficient: i64,
    pub path: Path,
}

/// A linear comparison: the sum of the terms is at most the bound. Its terms have distinct paths, in path order.
#[derive(Debug, Drop)]
pub struct Row {
    pub terms: Items<Term>,
    pub bound: i64,
}

/// A test that a guard is made of: that the value at a path is of a type and isn't null, or a row.
#[derive(Debug, Drop)]
pub enum Atom {
    Is(Path, Ty),
    Row(Row),
}

/// A predicate of a body, in normal form.
#[derive(Debug, Drop)]
pub enum Guard {
    True,
    False,
    And(Boxed<Guard>, Boxed<Guard>),
    Or(Boxed<Guard>, Boxed<Guard>),
    Not(Boxed<Guard>),
    Atom(Atom),
}
