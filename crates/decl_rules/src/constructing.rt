ghost use Rattle.std.specs.Prelude.{◌≡◌};
ghost use Rattle.std.specs.List.{list_any};
ghost use Rattle.std.specs.Option.{option_copied, option_to_list};
ghost use Rattle.jp_pred.specs.Names.{same};
ghost use Rattle.type_rules.specs.Heads.{head_of, superclass_of};
ghost use Rattle.type_rules.specs.Nodes.{AtDecl, AtMember};
ghost use Rattle.type_rules.specs.RulesOfDeclarations.{rule_35, super_head, cant_construct, super_arguments, has_no_constructor};
ghost use Rattle.decl_rules.specs.Standing.{decl_of, member_of};

use crate::members::is_constructor;
use crate::standing::{DeclAt, MemberAt};
use iface_codec::Iface;
use jp_ast::Decl;
use type_heads::{constructor_of, is_class, some_misfit};
use type_rules::Seen;

/// Whether the member is a constructor, and the superclass has none that takes the arguments of `super(..)`.
pub(crate) fn cant_call_super(at: &MemberAt) -> bool
    ensures { result ≡ rule_35 (AtMember (member_of at.now)) }
{
    is_constructor(at.member) && super_refuses(at.heads, at.decl, at.super_args)
}

/// Whether no constructor is written, and the superclass has none without parameters.
pub(crate) fn cant_be_made(at: &DeclAt) -> bool
    ensures { result ≡ rule_35 (AtDecl (decl_of at.now)) }
{
    has_no_constructor(at.decl) && super_refuses(at.heads, at.decl, None)
}

fn has_no_constructor(decl: &Decl) -> bool
    ensures { result ≡ has_no_constructor decl.now }
{
    let members = decl.members.as_slice();
    members.iter().all(|member| !is_constructor(member))
}

/// Whether the superclass is a class without a constructor that takes the arguments, which are none where they aren't
/// written.
fn super_refuses(heads: &[Iface], decl: &Decl, args: Option<&[Seen]>) -> bool
    ensures { result ≡ list_any (cant_construct heads.now (super_arguments (option_copied args.entry))) (super_head heads.now decl.now) }
{
    match super_head(heads, decl) {
        Some(class) => cant_construct(heads, class, args),
        None => false,
    }
}

fn cant_construct(heads: &[Iface], class: &Iface, args: Option<&[Seen]>) -> bool
    ensures { result ≡ cant_construct heads.now (super_arguments (option_copied args.entry)) class.now }
{
    match args {
        Some(args) => cant_take(heads, class, args),
        None => constructor_of(class, 0).is_none(),
    }
}

/// Whether the class has no constructor that takes the arguments.
fn cant_take(heads: &[Iface], class: &Iface, args: &[Seen]) -> bool
    ensures { result ≡ cant_construct heads.now args.now class.now }
{
    match constructor_of(class, args.len()) {
        Some(params) => some_misfit(heads, args, params),
        None => true,
    }
}

/// The superclass of a declaration, where it is a class.
fn super_head<'a>(heads: &'a [Iface], decl: &Decl) -> Option<&'a Iface>
    ensures { option_to_list (option_copied result) ≡ super_head heads.now decl.now }
{
    let head = head_named(heads, superclass_of(decl)?)?;
    if is_class(head) { Some(head) } else { None }
}

/// The name of the superclass, which is Object where none is written; an interface has none.
fn superclass_of(decl: &Decl) -> Option<&[u8]>
    ensures { option_copied result ≡ superclass_of decl.now }
{
    if decl.is_interface {
        return None;
    }
    match &decl.superclass {
        Some(name) => Some(name.bytes()),
        None => Some(b"Object".as_slice()),
    }
}

/// The first class of that name.
fn head_named<'a>(heads: &'a [Iface], name: &[u8]) -> Option<&'a Iface>
    ensures { option_copied result ≡ head_of heads.now name.now }
{
    heads.iter().find(|head| is_named(head, name))
}

fn is_named(head: &Iface, name: &[u8]) -> bool
    ensures { result ≡ same head.now.name name.now }
{
    head.name.bytes() == name
}
