ghost use Rattle.std.specs.Prelude.{◌∷◌, [], IfOk};
ghost use Rattle.jp_grammar.specs.declared.kind.Kind.TheVariants as k;
ghost use Rattle.jp_grammar.specs.Declarations.{MoreNames, MaybeNames, MaybeSuper, Declaration};
ghost use Rattle.jp_grammar.specs.Reading.{Any, IsText, IsRest};
ghost use Rattle.jp_parse_decl.specs.Answers.{Yields};
ghost use Rattle.jp_parse_stmt.specs.Behind.{anything};
ghost use Rattle.jp_parse_decl.specs.Behind.{ends_brace, ends_super};
ghost use Rattle.jp_parse_decl.specs.Bounds.{SmallDecl};
ghost use Rattle.jp_parse_decl.specs.Parts.{Declared, ClassAt, InterfaceAt, NamesAt};

use crate::body::{members, promises};
use crate::token::{expect, expect_class, read_label, skip_public};
use jp_ast::{Decl, Token, sign};
use jp_grammar::{Kind, ParseFault, front, is_sign, kind_of};
use jp_pred::Name;
use sqlite_items::Items;
use std::alloc::Global;

/// A class or an interface.
pub fn declaration(alloc: Global, tokens: &[Token]) -> Result<(Decl, &[Token]), ParseFault>
    requires text { IsText tokens.now }
    ensures gives { Yields Declaration anything SmallDecl tokens.now result }
    ensures rest { IfOk result (λ x. IsRest tokens.now x.1.now) }
{
    let rest = skip_public(tokens);
    declared(alloc, rest)
}

/// A class or an interface without `public` in front.
fn declared(alloc: Global, tokens: &[Token]) -> Result<(Decl, &[Token]), ParseFault>
    requires text { IsText tokens.now }
    ensures gives { Yields Declared anything SmallDecl tokens.now result }
    ensures rest { IfOk result (λ x. IsRest tokens.now x.1.now) }
{
    let (first, rest) = front(tokens);
    match kind_of(first) {
        Kind::Interface => interface(alloc, rest),
        Kind::Abstract => class(alloc, true, false, rest),
        Kind::Final => class(alloc, false, true, rest),
        _ => class(alloc, false, false, tokens),
    }
}

/// A class from the word `class` on.
fn class(
    alloc: Global,
    is_abstract: bool,
    is_final: bool,
    tokens: &[Token],
) -> Result<(Decl, &[Token]), ParseFault>
    requires text { IsText tokens.now }
    ensures gives { Yields (ClassAt is_abstract is_final) anything SmallDecl tokens.now result }
    ensures rest { IfOk result (λ x. IsRest tokens.now x.1.now) }
{
    let rest = expect_class(alloc, tokens)?;
    let (label, rest) = read_label(alloc, rest)?;
    let (superclass, rest) = superclass(alloc, rest)?;
    let (interfaces, rest) = implemented(alloc, rest)?;
    let rest = expect(alloc, rest, sign::OPEN_BRACE)?;
    let (members, rest) = members(alloc, rest)?;
    let decl = Decl {
        place: label.place,
        name: label.name,
        is_interface: false,
        is_abstract,
        is_final,
        superclass,
        interfaces,
        members,
    };
    Ok((decl, rest))
}

/// An interface behind the word `interface`.
fn interface(alloc: Global, tokens: &[Token]) -> Result<(Decl, &[Token]), ParseFault>
    requires text { IsText tokens.now }
    ensures gives { Yields InterfaceAt anything SmallDecl tokens.now result }
    ensures rest { IfOk result (λ x. IsRest tokens.now x.1.now) }
{
    let (label, rest) = read_label(alloc, tokens)?;
    let (interfaces, rest) = extended(alloc, rest)?;
    let rest = expect(alloc, rest, sign::OPEN_BRACE)?;
    let (members, rest) = promises(alloc, rest)?;
    let decl = Decl {
        place: label.place,
        name: label.name,
        is_interface: true,
        is_abstract: false,
        is_final: false,
        superclass: None,
        interfaces,
        members,
    };
    Ok((decl, rest))
}

/// The name behind `extends`, where it stands there.
fn superclass(alloc: Global, tokens: &[Token]) -> Result<(Option<Name>, &[Token]), ParseFault>
    requires text { IsText tokens.now }
    ensures gives { Yields MaybeSuper ends_super Any tokens.now result }
    ensures rest { IfOk result (λ x. IsRest tokens.now x.1.now) }
{
    let (first, rest) = front(tokens);
    if kind_of(first) != Kind::Extends {
        return Ok((None, tokens));
    }
    let (label, behind) = read_label(alloc, rest)?;
    Ok((Some(label.name), behind))
}

/// The names behind `implements`, where it stands there.
fn implemented(alloc: Global, tokens: &[Token]) -> Result<(Items<Name>, &[Token]), ParseFault>
    requires text { IsText tokens.now }
    ensures gives { Yields (MaybeNames k.Implements) ends_brace Any tokens.now result }
    ensures rest { IfOk result (λ x. IsRest tokens.now x.1.now) }
{
    let (first, rest) = front(tokens);
    if kind_of(first) != Kind::Implements {
        return Ok((Items::new(alloc), tokens));
    }
    names(alloc, rest)
}

/// The names behind `extends`, where it stands there.
fn extended(alloc: Global, tokens: &[Token]) -> Result<(Items<Name>, &[Token]), ParseFault>
    requires text { IsText tokens.now }
    ensures gives { Yields (MaybeNames k.Extends) ends_brace Any tokens.now result }
    ensures rest { IfOk result (λ x. IsRest tokens.now x.1.now) }
{
    let (first, rest) = front(tokens);
    if kind_of(first) != Kind::Extends {
        return Ok((Items::new(alloc), tokens));
    }
    names(alloc, rest)
}

/// Names with commas between them.
fn names(alloc: Global, tokens: &[Token]) -> Result<(Items<Name>, &[Token]), ParseFault>
    requires text { IsText tokens.now }
    ensures gives { Yields NamesAt ends_brace Any tokens.now result }
    ensures rest { IfOk result (λ x. IsRest tokens.now x.1.now) }
{
    let (first, rest) = read_label(alloc, tokens)?;
    let mut names = Items::new(alloc);
    names.push(first.name)?;
    more_names(alloc, names, rest)
}

/// The names behind some names.
fn more_names(
    alloc: Global,
    mut names: Items<Name>,
    mut tokens: &[Token],
) -> Result<(Items<Name>, &[Token]), ParseFault>
    requires text { IsText tokens.now }
    ensures gives { Yields (MoreNames names) ends_brace Any tokens.entry.now result }
    ensures rest { IfOk result (λ x. IsRest tokens.entry.now x.1.now) }
{
    'list: loop {
        let (next, rest) = front(tokens);
        if !is_sign(next, sign::COMMA) {
            return Ok((names, tokens));
        }
        let (name, behind) = read_label(alloc, rest)?;
        names.push(name.name)?;
        tokens = behind;
    }
}
