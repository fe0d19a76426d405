//! Members, declarations and units.

ghost use Rattle.std.specs.Prelude.{◌≡◌, ◌++◌, ◌∷◌, [], List, ℕ, Bool, OnOk, map, flat_map, option_map, codes};
ghost use Rattle.jp_ast.specs.declared.token.Lexeme.TheVariants.{Word, Sign};
ghost use Rattle.jp_ast.specs.declared.sign.TheConstants as sign;
ghost use Rattle.jp_print.specs.Layout.{laid_out};
ghost use Rattle.jp_print.specs.Expressions.{in_parens, commas, maybe, type_tokens, printed_expr};
ghost use Rattle.jp_print.specs.Statements.{in_braces, printed_stmt, all_tokens, block_tokens};
ghost use Rattle.jp_print.specs.Declarations.{word_if, name_tokens, word_names, param_tokens, named_params, signature, when_guard, super_call, part_tokens, member_tokens, extends_name, class_head, interface_head, decl_tokens};

use crate::exprs::{put_args, put_comma, put_type};
use crate::guards::put_guard;
use crate::stmts::{put_all, put_block};
use crate::tokens::{put_sign, put_word};
use jp_ast::{Decl, Expr, GuardExpr, Member, MemberPart, Param, Stmt, sign};
use jp_pred::{Name, Ty};
use sqlite_items::Items;
use std::alloc::AllocError;

/// A class or an interface.
pub(crate) fn put_decl(out: &mut Vec<u8>, decl: &Decl) -> Result<(), AllocError>
    ensures { OnOk result (out.new.items ≡ out.old.items ++ laid_out (decl_tokens decl.now)) }
{
    if decl.is_interface {
        put_interface_head(out, decl)?;
    } else {
        put_class_head(out, decl)?;
    }
    put_sign(out, sign::OPEN_BRACE)?;
    put_members(out, decl.is_interface, decl.members.as_slice())?;
    put_sign(out, sign::CLOSE_BRACE)
}

/// What stands in front of an interface's members.
fn put_interface_head(out: &mut Vec<u8>, decl: &Decl) -> Result<(), AllocError>
    ensures { OnOk result (out.new.items ≡ out.old.items ++ laid_out (interface_head decl.now)) }
{
    put_word(out, b"interface")?;
    put_word(out, decl.name.bytes())?;
    put_word_names(out, b"extends", decl.interfaces.as_slice())
}

/// What stands in front of a class's members.
fn put_class_head(out: &mut Vec<u8>, decl: &Decl) -> Result<(), AllocError>
    ensures { OnOk result (out.new.items ≡ out.old.items ++ laid_out (class_head decl.now)) }
{
    put_word_if(out, decl.is_abstract, b"abstract")?;
    put_word_if(out, decl.is_final, b"final")?;
    put_word(out, b"class")?;
    put_word(out, decl.name.bytes())?;
    put_extends(out, &decl.superclass)?;
    put_word_names(out, b"implements", decl.interfaces.as_slice())
}

/// The word, where it is to stand there.
fn put_word_if(out: &mut Vec<u8>, stands: bool, word: &[u8]) -> Result<(), AllocError>
    ensures { OnOk result (out.new.items ≡ out.old.items ++ laid_out (word_if stands word.now)) }
{
    if stands {
        put_word(out, word)?;
    }
    Ok(())
}

/// `extends` and a name, where there is one.
fn put_extends(out: &mut Vec<u8>, superclass: &Option<Name>) -> Result<(), AllocError>
    ensures { OnOk result (out.new.items ≡ out.old.items ++ laid_out (maybe extends_name superclass.now)) }
{
    match superclass {
        Some(name) => {
            put_word(out, b"extends")?;
            put_word(out, name.bytes())
        }
        None => Ok(()),
    }
}

/// The word and the names behind it, or nothing where there are none.
fn put_word_names(out: &mut Vec<u8>, word: &[u8], names: &[Name]) -> Result<(), AllocError>
    ensures { OnOk result (out.new.items ≡ out.old.items ++ laid_out (word_names word.now names.now)) }
{
    if names.is_empty() {
        return Ok(());
    }
    put_word(out, word)?;
    put_names(out, names)
}

/// Names with a comma between two.
fn put_names(out: &mut Vec<u8>, names: &[Name]) -> Result<(), AllocError>
    ensures { OnOk result (out.new.items ≡ out.old.items ++ laid_out (commas (map name_tokens names.now))) }
{
    for (place, name) in names.iter().enumerate() {
        put_comma(out, place)?;
        put_word(out, name.bytes())?;
    }
    Ok(())
}

/// The members of an interface or of a class.
fn put_members(out: &mut Vec<u8>, in_interface: bool, members: &[Member]) -> Result<(), AllocError>
    ensures { OnOk result (out.new.items ≡ out.old.items ++ laid_out (flat_map (member_tokens in_interface) members.now)) }
{
    for member in members {
        put_word_if(out, member.is_private, b"private")?;
        put_part(out, in_interface, member)?;
    }
    Ok(())
}

/// A member behind `private`. Only a class says `abstract`.
fn put_part(out: &mut Vec<u8>, in_interface: bool, member: &Member) -> Result<(), AllocError>
    ensures { OnOk result (out.new.items ≡ out.old.items ++ laid_out (part_tokens in_interface member.now.name member.now.params member.now.part)) }
{
    let name = &member.name;
    let params = member.params.as_slice();
    match &member.part {
        MemberPart::Field { ty, is_static } => put_field(out, *is_static, ty, name),
        MemberPart::Static {
            result: returned,
            block,
        } => {
            put_word(out, b"static")?;
            put_signature(out, returned, name, params)?;
            put_block(out, block.as_slice())
        }
        MemberPart::Abstract { result: returned } => {
            put_word_if(out, !in_interface, b"abstract")?;
            put_signature(out, returned, name, params)?;
            put_sign(out, sign::SEMICOLON)
        }
        MemberPart::Body {
            result: returned,
            guard,
            block,
        } => {
            put_signature(out, returned, name, params)?;
            put_when(out, guard)?;
            put_block(out, block.as_slice())
        }
        MemberPart::Constructor { super_args, block } => {
            put_named_params(out, name, params)?;
            put_constructor_block(out, super_args, block.as_slice())
        }
    }
}

/// A field with its `;`.
fn put_field(out: &mut Vec<u8>, is_static: bool, ty: &Ty, name: &Name) -> Result<(), AllocError>
    ensures { OnOk result (out.new.items ≡ out.old.items ++ laid_out (word_if is_static (codes "static") ++ type_tokens ty.now ++ Word name.now ∷ Sign sign.SEMICOLON ∷ [])) }
{
    put_word_if(out, is_static, b"static")?;
    put_type(out, ty)?;
    put_word(out, name.bytes())?;
    put_sign(out, sign::SEMICOLON)
}

/// A method's result, name and parameters.
fn put_signature(
    out: &mut Vec<u8>,
    returned: &Ty,
    name: &Name,
    params: &[Param],
) -> Result<(), AllocError>
    ensures { OnOk result (out.new.items ≡ out.old.items ++ laid_out (signature returned.now name.now params.now)) }
{
    put_type(out, returned)?;
    put_named_params(out, name, params)
}

/// A name, and parameters in parentheses.
fn put_named_params(out: &mut Vec<u8>, name: &Name, params: &[Param]) -> Result<(), AllocError>
    ensures { OnOk result (out.new.items ≡ out.old.items ++ laid_out (named_params name.now params.now)) }
{
    put_word(out, name.bytes())?;
    put_sign(out, sign::OPEN_PAREN)?;
    put_params(out, params)?;
    put_sign(out, sign::CLOSE_PAREN)
}

/// Parameters with a comma between two.
fn put_params(out: &mut Vec<u8>, params: &[Param]) -> Result<(), AllocError>
    ensures { OnOk result (out.new.items ≡ out.old.items ++ laid_out (commas (map param_tokens params.now))) }
{
    for (place, param) in params.iter().enumerate() {
        put_comma(out, place)?;
        put_param(out, param)?;
    }
    Ok(())
}

/// A parameter: its type and its name.
fn put_param(out: &mut Vec<u8>, param: &Param) -> Result<(), AllocError>
    ensures { OnOk result (out.new.items ≡ out.old.items ++ laid_out (param_tokens param.now)) }
{
    put_type(out, &param.ty)?;
    put_word(out, param.name.bytes())
}

/// `when` and a guard, where there is one.
fn put_when(out: &mut Vec<u8>, guard: &Option<GuardExpr>) -> Result<(), AllocError>
    ensures { OnOk result (out.new.items ≡ out.old.items ++ laid_out (maybe when_guard guard.now)) }
{
    match guard {
        Some(guard) => {
            put_word(out, b"when")?;
            put_guard(out, guard)
        }
        None => Ok(()),
    }
}

/// The statements of a constructor in braces, behind its call of `super` where that is written.
fn put_constructor_block(
    out: &mut Vec<u8>,
    super_args: &Option<Items<Expr>>,
    block: &[Stmt],
) -> Result<(), AllocError>
    ensures { OnOk result (out.new.items ≡ out.old.items ++ laid_out (in_braces (maybe super_call super_args.now ++ all_tokens (map printed_stmt block.now)))) }
{
    put_sign(out, sign::OPEN_BRACE)?;
    put_super_call(out, super_args)?;
    put_all(out, block)?;
    put_sign(out, sign::CLOSE_BRACE)
}

/// `super(args);`, where it is written.
fn put_super_call(out: &mut Vec<u8>, args: &Option<Items<Expr>>) -> Result<(), AllocError>
    ensures { OnOk result (out.new.items ≡ out.old.items ++ laid_out (maybe super_call args.now)) }
{
    match args {
        Some(args) => {
            put_word(out, b"super")?;
            put_args(out, args.as_slice())?;
            put_sign(out, sign::SEMICOLON)
        }
        None => Ok(()),
    }
}
