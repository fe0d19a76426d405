use crate::{Expr, GuardExpr, Place, Stmt};
use jp_pred::{Name, Ty};
use sqlite_items::Items;

/// A unit: its classes and interfaces in source order.
#[derive(Debug, Drop)]
pub struct SourceUnit {
    pub decls: Items<Decl>,
}

/// A class or an interface, at the place of its name. The supertypes of an interface are its `interfaces`.
#[derive(Debug, Drop)]
pub struct Decl {
    pub place: Place,
    pub name: Name,
    pub is_interface: bool,
    pub is_abstract: bool,
    pub is_final: bool,
    pub superclass: Option<Name>,
    pub interfaces: Items<Name>,
    pub members: Items<Member>,
}

/// A parameter, at the place of its name.
#[derive(Debug, Drop)]
pub struct Param {
    pub place: Place,
    pub ty: Ty,
    pub name: Name,
}

/// A member, at the place of its name. A field has no parameters.
#[derive(Debug, Drop)]
pub struct Member {
    pub place: Place,
    pub is_private: bool,
    pub name: Name,
    pub params: Items<Param>,
    pub part: MemberPart,
}

/// What a member is, behind its name and parameters.
#[derive(Debug, Drop)]
pub enum MemberPart {
    Field {
        ty: Ty,
        is_static: bool,
    },
    /// A static method.
    Static {
        result: Ty,
        block: Items<Stmt>,
    },
    /// A method without a body.
    Abstract {
        result: Ty,
    },
    /// A body of a method, and its guard where it has one.
    Body {
        result: Ty,
        guard: Option<GuardExpr>,
        block: Items<Stmt>,
    },
    /// A constructor, and the arguments of `super(..)` where it is written.
    Constructor {
        super_args: Option<Items<Expr>>,
        block: Items<Stmt>,
    },
}
