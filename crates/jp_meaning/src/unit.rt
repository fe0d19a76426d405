use crate::{TypedExpr, TypedGuard, TypedStmt};
use iface_codec::Iface;
use jp_pred::Ty;
use sqlite_items::Items;

/// A unit with its names resolved: its classes and interfaces in source order.
#[derive(Debug, Drop)]
pub struct TypedUnit {
    pub classes: Items<TypedClass>,
}

/// A class or an interface: its head, and its members in source order. A class that is written without a constructor
/// has one with an empty block as its last member.
#[derive(Debug, Drop)]
pub struct TypedClass {
    pub head: Iface,
    pub members: Items<TypedMember>,
}

/// What a member is, with its position in that list of the head.
#[derive(Clone, Copy, Debug, PartialEq, Eq)]
pub enum TypedPart {
    Field(u16),
    Method(u16),
    Constructor(u16),
}

/// A member. The receiver, the parameters, the aliases and the locals have slots in this order; `locals` is the
/// greatest number of slots in use.
#[derive(Debug, Drop)]
pub struct TypedMember {
    pub part: TypedPart,
    pub locals: u8,
    pub guard: Option<TypedGuard>,
    /// The parameters of the constructor of the superclass that a constructor calls.
    pub super_params: Items<Ty>,
    pub super_args: Items<TypedExpr>,
    pub block: Items<TypedStmt>,
}
