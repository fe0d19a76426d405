use iface_codec::{Iface, IfaceMethod};
use jp_ast::{Decl, Member};
use type_rules::Seen;

/// What stands above a declaration: its superclasses upwards, and the methods of all its supertypes, private ones among
/// them.
#[derive(Drop)]
pub struct Above<'a> {
    pub superclasses: Vec<&'a Iface>,
    pub inherited: Vec<&'a IfaceMethod>,
}

/// A declaration, with those before it.
#[derive(Clone, Copy)]
pub(crate) struct DeclAt<'a> {
    pub(crate) heads: &'a [Iface],
    pub(crate) before: &'a [Decl],
    pub(crate) decl: &'a Decl,
}

/// A member of a declaration, with those before it, what is seen of the arguments of `super(..)` where it is written, and
/// whether its statements can complete.
#[derive(Clone, Copy)]
pub(crate) struct MemberAt<'a> {
    pub(crate) heads: &'a [Iface],
    pub(crate) decl: &'a Decl,
    pub(crate) before: &'a [Member],
    pub(crate) member: &'a Member,
    pub(crate) super_args: Option<&'a [Seen]>,
    pub(crate) completes: bool,
}
