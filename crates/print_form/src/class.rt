//! The class of a program and its `main`.

ghost use Rattle.std.specs.Prelude.{◌≡◌, ◌↔◌, [], codes, IsTrue, Contains, MatchOption, List};
ghost use Rattle.jp_pred.specs.declared.ty.Ty.TheVariants as ty;
ghost use Rattle.jp_ast.specs.declared.stmt.Stmt.{Stmt};
ghost use Rattle.jp_ast.specs.declared.decl.MemberPart.TheVariants as part;
ghost use Rattle.print_form.specs.Form.{IsBlock, IsMethod, IsMain, IsPlain, IsClass, library_classes};
ghost use Rattle.print_form.specs.Deciding.{Decides};

use crate::NoProgram;
use crate::printing::printed_by;
use jp_ast::{Decl, Member, MemberPart, Stmt};
use jp_pred::Ty;
use std::alloc::Global;

/// How many statements `main` may have.
const MOST: usize = 200;

/// The numbers that `main` prints, where it is the class's only member and the class has the name.
pub(crate) fn class_numbers(alloc: Global, main: &[u8], class: &Decl) -> Result<Vec<i32>, NoProgram>
    ensures { Decides (λ literals. IsClass main.now literals class.now) result }
{
    if !is_plain(main, class) {
        return Err(NoProgram::NotYet(class.place));
    }
    let [method, others @ ..] = class.members.as_slice() else {
        return Err(NoProgram::NotYet(class.place));
    };
    let numbers = main_numbers(alloc, method)?;
    match others.first() {
        Some(other) => Err(NoProgram::NotYet(other.place)),
        None => Ok(numbers),
    }
}

/// Whether the class has the name, neither modifiers nor supertypes, and isn't one that the language brings along.
fn is_plain(main: &[u8], class: &Decl) -> bool
    ensures { IsTrue result ↔ IsPlain main.now class.now }
{
    class.name.bytes() == main
        && !is_library_class(main)
        && !class.is_interface
        && !class.is_abstract
        && !class.is_final
        && class.superclass.is_none()
        && class.interfaces.is_empty()
}

/// Whether this is one of the classes that the language brings along.
fn is_library_class(name: &[u8]) -> bool
    ensures { IsTrue result ↔ Contains library_classes name.now }
{
    name == b"Object".as_slice() || name == b"Io".as_slice() || name == b"String".as_slice()
}

/// The numbers that a method `static void main()` prints.
fn main_numbers(alloc: Global, method: &Member) -> Result<Vec<i32>, NoProgram>
    ensures { Decides (λ literals. IsMain literals method.now) result }
{
    let Some(block) = block_of(method) else {
        return Err(NoProgram::NotYet(method.place));
    };
    if let Some(param) = method.params.as_slice().first() {
        return Err(NoProgram::NotYet(param.place));
    }
    block_numbers(alloc, block)
}

/// The statements of a static method `main` without a result, which isn't private.
fn block_of(method: &Member) -> Option<&[Stmt]>
    ensures { MatchOption result ((block : List Stmt) → IsMethod block method.now → ⊥) (λ block. IsMethod block.now method.now) }
{
    let MemberPart::Static {
        result: Ty::Void,
        block,
    } = &method.part
    else {
        return None;
    };
    if method.is_private || method.name.bytes() != b"main".as_slice() {
        return None;
    }
    Some(block.as_slice())
}

/// The numbers that at most 200 statements print.
fn block_numbers(alloc: Global, block: &[Stmt]) -> Result<Vec<i32>, NoProgram>
    ensures { Decides (λ literals. IsBlock literals block.now) result }
{
    let mut numbers = Vec::new(alloc);
    for statement in block {
        if numbers.len() == MOST {
            return Err(NoProgram::NotYet(statement.place));
        }
        numbers.push(printed_by(statement)?.value())?;
    }
    Ok(numbers)
}
