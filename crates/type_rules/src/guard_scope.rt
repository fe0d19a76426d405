use crate::Variable;
use iface_codec::Iface;
use jp_pred::{Name, Path, Ty};
use sqlite_items::Items;

/// A name for a path, with the path's declared type and the type of the local that holds its value.
#[derive(Debug, Drop)]
pub struct Alias {
    pub name: Name,
    pub path: Path,
    pub declared: Ty,
    pub ty: Ty,
}

/// A path of which a test said that its value is of a class.
#[derive(Debug, Drop)]
pub struct Narrowed {
    pub path: Path,
    pub class: Name,
}

/// Where a part of a guard stands.
#[derive(Debug, Drop)]
pub struct GuardScope {
    /// The classes that are seen: those of the language itself, those of the unit, and others.
    pub heads: Items<Iface>,
    /// The class whose body the guard belongs to.
    pub class: Name,
    pub params: Items<Variable>,
    /// The aliases that are made further left in the guard.
    pub aliases: Items<Alias>,
    /// What the tests say under which it stands, in their order.
    pub tests: Items<Narrowed>,
    /// Whether it is reached from the guard's root through `&&` alone.
    pub is_outermost: bool,
}
