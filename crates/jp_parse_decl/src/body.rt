ghost use Rattle.std.specs.Prelude.{◌≡◌, [], IfOk};
ghost use Rattle.jp_grammar.specs.Declarations.{MemberBody, OneMember, Members, Promise, Promises};
ghost use Rattle.jp_grammar.specs.Reading.{IsText, IsRest, Begins};
ghost use Rattle.jp_parse_decl.specs.Answers.{Yields};
ghost use Rattle.jp_parse_stmt.specs.Behind.{anything};
ghost use Rattle.jp_parse_decl.specs.Behind.{name_kind, super_word};
ghost use Rattle.jp_parse_decl.specs.Bounds.{SmallMember, SmallMembers, SmallPart};
ghost use Rattle.jp_parse_decl.specs.Parts.{Bare, Pledge, Titled, MemberRest, StaticRest, BodyRest, ConstructorAt, ConstructorBody, ConstructorArgs, is_void, made_at};

use crate::lower::{block, braces, maybe_guard, passed, result_of};
use crate::parameters::params;
use crate::token::{Label, expect, read_label, skip_abstract, skip_public};
use jp_ast::{Member, MemberPart, Param, Token, sign};
use jp_grammar::{Kind, ParseFault, front, is_sign, kind_of};
use jp_pred::Ty;
use sqlite_items::Items;
use std::alloc::Global;

/// The members of a class, and `}`.
pub fn members(alloc: Global, tokens: &[Token]) -> Result<(Items<Member>, &[Token]), ParseFault>
    requires text { IsText tokens.now }
    ensures gives { Yields (Members []) anything SmallMembers tokens.now result }
    ensures rest { IfOk result (λ x. IsRest tokens.now x.1.now) }
{
    let mut members = Items::new(alloc);
    let mut left = tokens;
    'list: loop {
        let (first, rest) = front(left);
        if is_sign(first, sign::CLOSE_BRACE) {
            return Ok((members, rest));
        }
        let (member, behind) = member(alloc, left)?;
        members.push(member)?;
        left = behind;
    }
}

/// A member of a class.
fn member(alloc: Global, tokens: &[Token]) -> Result<(Member, &[Token]), ParseFault>
    requires text { IsText tokens.now }
    ensures gives { Yields OneMember anything SmallMember tokens.now result }
    ensures rest { IfOk result (λ x. IsRest tokens.now x.1.now) }
{
    let (first, rest) = front(tokens);
    match kind_of(first) {
        Kind::Public => member_body(alloc, false, rest),
        Kind::Private => member_body(alloc, true, rest),
        _ => member_body(alloc, false, tokens),
    }
}

/// What stands behind `public` or `private` in a member.
fn member_body(
    alloc: Global,
    is_private: bool,
    tokens: &[Token],
) -> Result<(Member, &[Token]), ParseFault>
    requires text { IsText tokens.now }
    ensures gives { Yields (MemberBody is_private) anything SmallMember tokens.now result }
    ensures rest { IfOk result (λ x. IsRest tokens.now x.1.now) }
{
    let (first, rest) = front(tokens);
    match kind_of(first) {
        Kind::Abstract => pledge(alloc, is_private, rest),
        Kind::Static => titled(alloc, is_private, true, rest),
        Kind::Name => named(alloc, is_private, tokens),
        _ => titled(alloc, is_private, false, tokens),
    }
}

/// The result, the name and the parameters of a method without a body, and `;`.
fn pledge(
    alloc: Global,
    is_private: bool,
    tokens: &[Token],
) -> Result<(Member, &[Token]), ParseFault>
    requires text { IsText tokens.now }
    ensures gives { Yields (Pledge is_private) anything SmallMember tokens.now result }
    ensures rest { IfOk result (λ x. IsRest tokens.now x.1.now) }
{
    let (result_type, rest) = result_of(alloc, tokens)?;
    let (label, rest) = read_label(alloc, rest)?;
    let (params, rest) = params(alloc, rest)?;
    let rest = expect(alloc, rest, sign::SEMICOLON)?;
    let part = MemberPart::Abstract {
        result: result_type,
    };
    Ok((made(is_private, label, params, part), rest))
}

/// A type or `void`, a name, and what makes a member of them.
fn titled(
    alloc: Global,
    is_private: bool,
    is_static: bool,
    tokens: &[Token],
) -> Result<(Member, &[Token]), ParseFault>
    requires text { IsText tokens.now }
    ensures gives { Yields (Titled is_private is_static) anything SmallMember tokens.now result }
    ensures rest { IfOk result (λ x. IsRest tokens.now x.1.now) }
{
    let (result_type, rest) = result_of(alloc, tokens)?;
    let (label, rest) = read_label(alloc, rest)?;
    member_rest(alloc, is_private, is_static, result_type, label, rest)
}

/// What makes a member of its type and its name: `;` of a field, or the rest of a method.
fn member_rest(
    alloc: Global,
    is_private: bool,
    is_static: bool,
    ty: Ty,
    label: Label,
    tokens: &[Token],
) -> Result<(Member, &[Token]), ParseFault>
    requires text { IsText tokens.now }
    ensures gives { Yields (MemberRest is_private is_static ty label) anything SmallMember tokens.now result }
    ensures rest { IfOk result (λ x. IsRest tokens.now x.1.now) }
{
    let (first, rest) = front(tokens);
    if is_sign(first, sign::SEMICOLON) && !is_void(&ty) {
        let part = MemberPart::Field { ty, is_static };
        return Ok((made(is_private, label, Items::new(alloc), part), rest));
    }
    if is_static {
        return static_rest(alloc, is_private, ty, label, tokens);
    }
    body_rest(alloc, is_private, ty, label, tokens)
}

/// Whether the type is `void`.
fn is_void(ty: &Ty) -> bool
    ensures { result ≡ is_void ty.now }
{
    matches!(ty, Ty::Void)
}

/// The parameters and the statements of a static method.
fn static_rest(
    alloc: Global,
    is_private: bool,
    result_type: Ty,
    label: Label,
    tokens: &[Token],
) -> Result<(Member, &[Token]), ParseFault>
    requires text { IsText tokens.now }
    ensures gives { Yields (StaticRest is_private result_type label) anything SmallMember tokens.now result }
    ensures rest { IfOk result (λ x. IsRest tokens.now x.1.now) }
{
    let (params, rest) = params(alloc, tokens)?;
    let (block, rest) = braces(alloc, rest)?;
    let part = MemberPart::Static {
        result: result_type,
        block,
    };
    Ok((made(is_private, label, params, part), rest))
}

/// The parameters, the guard and the statements of a body of a method.
fn body_rest(
    alloc: Global,
    is_private: bool,
    result_type: Ty,
    label: Label,
    tokens: &[Token],
) -> Result<(Member, &[Token]), ParseFault>
    requires text { IsText tokens.now }
    ensures gives { Yields (BodyRest is_private result_type label) anything SmallMember tokens.now result }
    ensures rest { IfOk result (λ x. IsRest tokens.now x.1.now) }
{
    let (params, rest) = params(alloc, tokens)?;
    let (guard, rest) = maybe_guard(alloc, rest)?;
    let (block, rest) = braces(alloc, rest)?;
    let part = MemberPart::Body {
        result: result_type,
        guard,
        block,
    };
    Ok((made(is_private, label, params, part), rest))
}

/// A member that begins with a name: a constructor, or one whose type begins with it.
fn named(
    alloc: Global,
    is_private: bool,
    tokens: &[Token],
) -> Result<(Member, &[Token]), ParseFault>
    requires text { IsText tokens.now }
    requires name { Begins name_kind tokens.now }
    ensures gives { Yields (MemberBody is_private) anything SmallMember tokens.now result }
    ensures rest { IfOk result (λ x. IsRest tokens.now x.1.now) }
{
    let (_, rest) = front(tokens);
    let (next, _) = front(rest);
    if is_sign(next, sign::OPEN_PAREN) {
        return constructor(alloc, is_private, tokens);
    }
    titled(alloc, is_private, false, tokens)
}

/// The name, the parameters and the statements of a constructor.
fn constructor(
    alloc: Global,
    is_private: bool,
    tokens: &[Token],
) -> Result<(Member, &[Token]), ParseFault>
    requires text { IsText tokens.now }
    ensures gives { Yields (ConstructorAt is_private) anything SmallMember tokens.now result }
    ensures rest { IfOk result (λ x. IsRest tokens.now x.1.now) }
{
    let (label, rest) = read_label(alloc, tokens)?;
    let (params, rest) = params(alloc, rest)?;
    let rest = expect(alloc, rest, sign::OPEN_BRACE)?;
    let (part, rest) = constructor_body(alloc, rest)?;
    Ok((made(is_private, label, params, part), rest))
}

/// What stands behind the brace of a constructor: `super(..);` where it is written, statements, and `}`.
fn constructor_body(alloc: Global, tokens: &[Token]) -> Result<(MemberPart, &[Token]), ParseFault>
    requires text { IsText tokens.now }
    ensures gives { Yields ConstructorBody anything SmallPart tokens.now result }
    ensures rest { IfOk result (λ x. IsRest tokens.now x.1.now) }
{
    let (first, _) = front(tokens);
    if kind_of(first) == Kind::Super {
        return super_body(alloc, tokens);
    }
    bare(alloc, tokens)
}

/// The same where it begins with `super`, which may be the call of a method of the superclass.
fn super_body(alloc: Global, tokens: &[Token]) -> Result<(MemberPart, &[Token]), ParseFault>
    requires text { IsText tokens.now }
    requires begins { Begins super_word tokens.now }
    ensures gives { Yields ConstructorBody anything SmallPart tokens.now result }
    ensures rest { IfOk result (λ x. IsRest tokens.now x.1.now) }
{
    let (_, rest) = front(tokens);
    let (next, behind) = front(rest);
    if is_sign(next, sign::OPEN_PAREN) {
        return constructor_args(alloc, behind);
    }
    bare(alloc, tokens)
}

/// The statements of a constructor without `super(..);`, and `}`.
fn bare(alloc: Global, tokens: &[Token]) -> Result<(MemberPart, &[Token]), ParseFault>
    requires text { IsText tokens.now }
    ensures gives { Yields Bare anything SmallPart tokens.now result }
    ensures rest { IfOk result (λ x. IsRest tokens.now x.1.now) }
{
    let (block, rest) = block(alloc, tokens)?;
    let super_args = None;
    Ok((MemberPart::Constructor { super_args, block }, rest))
}

/// What stands behind `super(` in a constructor: arguments, `)`, `;`, statements, and `}`.
fn constructor_args(alloc: Global, tokens: &[Token]) -> Result<(MemberPart, &[Token]), ParseFault>
    requires text { IsText tokens.now }
    ensures gives { Yields ConstructorArgs anything SmallPart tokens.now result }
    ensures rest { IfOk result (λ x. IsRest tokens.now x.1.now) }
{
    let (args, rest) = passed(alloc, tokens)?;
    let (block, rest) = block(alloc, rest)?;
    let super_args = Some(args);
    Ok((MemberPart::Constructor { super_args, block }, rest))
}

/// A member at its name.
fn made(is_private: bool, label: Label, params: Items<Param>, part: MemberPart) -> Member
    ensures { result ≡ made_at is_private label params part }
{
    Member {
        place: label.place,
        is_private,
        name: label.name,
        params,
        part,
    }
}

/// The methods of an interface, and `}`.
pub fn promises(alloc: Global, tokens: &[Token]) -> Result<(Items<Member>, &[Token]), ParseFault>
    requires text { IsText tokens.now }
    ensures gives { Yields (Promises []) anything SmallMembers tokens.now result }
    ensures rest { IfOk result (λ x. IsRest tokens.now x.1.now) }
{
    let mut members = Items::new(alloc);
    let mut left = tokens;
    'list: loop {
        let (first, rest) = front(left);
        if is_sign(first, sign::CLOSE_BRACE) {
            return Ok((members, rest));
        }
        let (member, behind) = promise(alloc, left)?;
        members.push(member)?;
        left = behind;
    }
}

/// A method of an interface.
fn promise(alloc: Global, tokens: &[Token]) -> Result<(Member, &[Token]), ParseFault>
    requires text { IsText tokens.now }
    ensures gives { Yields Promise anything SmallMember tokens.now result }
    ensures rest { IfOk result (λ x. IsRest tokens.now x.1.now) }
{
    let rest = skip_abstract(skip_public(tokens));
    pledge(alloc, false, rest)
}
