use crate::name::Name;
use crate::ty::Ty;
use sqlite_items::Items;

/// A class or an interface as others see it: its flags, the supertypes that it names, and its instance fields.
#[derive(Debug, Drop)]
pub struct SeenClass {
    pub name: Name,
    pub is_interface: bool,
    pub is_abstract: bool,
    pub is_final: bool,
    pub superclass: Option<Name>,
    pub interfaces: Items<Name>,
    pub fields: Items<(Name, Ty)>,
}

/// A hierarchy: the classes and interfaces that are seen. The class `Object` isn't listed.
#[derive(Debug, Drop)]
pub struct Hier {
    pub classes: Items<SeenClass>,
}
