use jp_pred::{Guard, Name, Path, Ty};
use sqlite_items::Items;

/// What a method is.
#[derive(Clone, Copy, Debug, PartialEq, Eq)]
pub enum MethodKind {
    Abstract,
    /// A body of a family, with its guard.
    Body,
    Static,
    PrivateStatic,
}

/// A field, static or of each object.
#[derive(Debug, Drop)]
pub struct IfaceField {
    pub name: Name,
    pub ty: Ty,
    pub is_private: bool,
    pub is_static: bool,
}

/// A method. One that is no body has the guard `True` and no aliases.
#[derive(Debug, Drop)]
pub struct IfaceMethod {
    pub name: Name,
    pub kind: MethodKind,
    pub params: Items<Ty>,
    pub result: Ty,
    /// The body's guard in normal form.
    pub guard: Guard,
    /// The paths whose values the body reads on entry, in source order, and the types of the locals that hold them.
    pub aliases: Items<(Path, Ty)>,
}

/// A class or an interface as other classes see it. Its lists are in source order, and a constructor is given by the
/// types of its parameters.
#[derive(Debug, Drop)]
pub struct Iface {
    pub name: Name,
    pub is_abstract: bool,
    pub is_final: bool,
    pub is_interface: bool,
    pub superclass: Option<Name>,
    pub interfaces: Items<Name>,
    pub fields: Items<IfaceField>,
    pub constructors: Items<Items<Ty>>,
    pub methods: Items<IfaceMethod>,
}
