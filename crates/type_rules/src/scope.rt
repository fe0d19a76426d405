use iface_codec::Iface;
use jp_pred::{Name, Ty};
use sqlite_items::Items;

/// A parameter, an alias or a local. An alias of a path with a fault has the type void.
#[derive(Debug, Drop)]
pub struct Variable {
    pub name: Name,
    pub ty: Ty,
}

/// Where a statement or an expression stands.
#[derive(Debug, Drop)]
pub struct Scope {
    /// The classes that are seen: those of the language itself, those of the unit, and others.
    pub heads: Items<Iface>,
    /// The class whose member it is in.
    pub class: Name,
    /// Whether that is a static method, which has no receiver.
    pub is_static: bool,
    /// The result of the method; void for a constructor.
    pub result: Ty,
    /// Whether a loop is around it in the member.
    pub is_in_loop: bool,
    /// The parameters, aliases and locals in scope, in the order of their slots.
    pub variables: Items<Variable>,
}
