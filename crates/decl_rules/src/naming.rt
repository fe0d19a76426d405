ghost use Rattle.std.specs.Prelude.{◌≡◌, [], ◌∷◌, map, length, not, false};
ghost use Rattle.std.specs.List.{list_any};
ghost use Rattle.std.specs.Option.{option_map_or};
ghost use Rattle.jp_pred.specs.Names.{object};
ghost use Rattle.jp_pred.specs.Hierarchy.{reaches};
ghost use Rattle.iface_codec.specs.Hierarchy.{hier_of};
ghost use Rattle.type_rules.specs.Types.{io, string, is_among, is_reserved};
ghost use Rattle.type_rules.specs.Heads.{head_of, names_interface};
ghost use Rattle.type_rules.specs.Nodes.{AtDecl};
ghost use Rattle.type_rules.specs.RulesOfDeclarations.{rule_1, rule_2, rule_3, rule_4, rule_5, is_open, has_twice};
ghost use Rattle.decl_rules.specs.Standing.{decl_of};

use crate::standing::DeclAt;
use iface_codec::Iface;
use jp_ast::Decl;
use jp_pred::Name;
use type_heads::{ascends, head_of, is_reserved, names_interface};

/// Whether the name is that of a class before it, or of one of the language's own.
pub(crate) fn has_taken_name(at: &DeclAt) -> bool
    ensures { result ≡ rule_1 (AtDecl (decl_of at.now)) }
{
    is_declared(at.before, &at.decl.name) || is_own_name(&at.decl.name)
}

/// Whether a declaration has the name.
fn is_declared(decls: &[Decl], name: &Name) -> bool
    ensures { result ≡ is_among name.now (map (λ x. x.name) decls.now) }
{
    for decl in decls {
        if decl.name == *name {
            return true;
        }
    }
    false
}

/// Whether it is a name that the language keeps for itself.
fn is_own_name(name: &Name) -> bool
    ensures { result ≡ is_among name.now (object ∷ io ∷ string ∷ []) }
{
    b"Object".as_slice() == name.bytes()
        || b"Io".as_slice() == name.bytes()
        || b"String".as_slice() == name.bytes()
}

/// Whether a written supertype is one of the names that are no types.
pub(crate) fn extends_reserved(at: &DeclAt) -> bool
    ensures { result ≡ rule_2 (AtDecl (decl_of at.now)) }
{
    let interfaces = at.decl.interfaces.as_slice();
    match &at.decl.superclass {
        Some(name) => is_reserved(name) || some_reserved(interfaces),
        None => some_reserved(interfaces),
    }
}

fn some_reserved(names: &[Name]) -> bool
    ensures { result ≡ list_any is_reserved names.now }
{
    names.iter().any(|name| is_reserved(name))
}

/// Whether the written superclass isn't a class that others may extend.
pub(crate) fn extends_closed(at: &DeclAt) -> bool
    ensures { result ≡ rule_3 (AtDecl (decl_of at.now)) }
{
    match &at.decl.superclass {
        Some(name) => !names_open(at.heads, name),
        None => false,
    }
}

/// Whether it is the name of a class that others may extend.
fn names_open(heads: &[Iface], name: &Name) -> bool
    ensures { result ≡ option_map_or is_open (head_of heads.now name.now) false }
{
    head_of(heads, name).is_some_and(is_open)
}

fn is_open(head: &Iface) -> bool
    ensures { result ≡ is_open head.now }
{
    !head.is_interface && !head.is_final
}

/// Whether a written interface isn't one, or is named twice.
pub(crate) fn misnames_interfaces(at: &DeclAt) -> bool
    ensures { result ≡ rule_4 (AtDecl (decl_of at.now)) }
{
    let interfaces = at.decl.interfaces.as_slice();
    some_no_interface(at.heads, interfaces) || has_twice(interfaces)
}

fn some_no_interface(heads: &[Iface], names: &[Name]) -> bool
    ensures { result ≡ list_any (λ name. not (names_interface heads.now name)) names.now }
{
    names.iter().any(|name| !names_interface(heads, name))
}

/// Whether some name stands in the list twice.
fn has_twice(names: &[Name]) -> bool
    ensures { result ≡ has_twice names.now }
{
    for (i, name) in names.iter().enumerate() {
        if is_among(name, &names[i + 1..]) {
            return true;
        }
    }
    false
}

fn is_among(name: &Name, names: &[Name]) -> bool
    ensures { result ≡ is_among name.now names.now }
{
    names.iter().any(|other| other == name)
}

/// Whether the class is above itself.
pub(crate) fn is_above_itself(at: &DeclAt) -> bool
    ensures { result ≡ rule_5 (AtDecl (decl_of at.now)) }
{
    let name = &at.decl.name;
    let interfaces = at.decl.interfaces.as_slice();
    match &at.decl.superclass {
        Some(above) => ascends(at.heads, above, name) || some_ascends(at.heads, interfaces, name),
        None => some_ascends(at.heads, interfaces, name),
    }
}

/// Whether the class `upper` is reached from one of the names.
fn some_ascends(heads: &[Iface], names: &[Name], upper: &Name) -> bool
    ensures { result ≡ list_any (λ name. reaches (length heads.now) (hier_of heads.now) name upper.now) names.now }
{
    names.iter().any(|name| ascends(heads, name, upper))
}
