//! Trees in words: each part has a blank in front, and a node with parts is `(NODE PART ..)`.

use crate::words::{push_digits, put_name, put_number, put_text, put_truth, put_word, sign_text};
use anyhow::Result;
use jp_ast::{
    Decl, Expr, ExprKind, GuardExpr, GuardKind, Member, MemberPart, Param, PathText, SourceUnit,
    Stmt, StmtKind, Summand,
};
use jp_pred::{Name, Ty};
use sqlite_items::Boxed;
use std::str;

/// What a node begins with.
fn open(out: &mut String, node: &str) -> Result<()> {
    out.push_str(" (")?;
    out.push_str(node)?;
    Ok(())
}

/// What a node ends with.
fn close(out: &mut String) -> Result<()> {
    out.push_str(")")?;
    Ok(())
}

/// A node whose one part is a name.
fn put_named(out: &mut String, node: &str, name: &Name) -> Result<()> {
    open(out, node)?;
    put_name(out, name)?;
    close(out)
}

fn put_type(out: &mut String, ty: &Ty) -> Result<()> {
    match ty {
        Ty::Void => put_word(out, "void"),
        Ty::Int => put_word(out, "int"),
        Ty::Boolean => put_word(out, "boolean"),
        Ty::Class(class) => put_name(out, class),
        Ty::IntArray => put_word(out, "int[]"),
        Ty::BooleanArray => put_word(out, "boolean[]"),
        Ty::ClassArray(class) => {
            put_name(out, class)?;
            out.push_str("[]")?;
            Ok(())
        }
    }
}

/// An expression. A call is `(call NAME ARGUMENT ..)`, what is selected of an object or of `super` is `(. OBJECT PART)`.
#[cycle(exprs)]
pub(crate) fn put_expr(out: &mut String, expr: &Expr) -> Result<()> {
    match &expr.kind {
        ExprKind::Number { value, hex } => put_number(out, *value, *hex),
        ExprKind::Truth(value) => put_truth(out, *value),
        ExprKind::Null => put_word(out, "null"),
        ExprKind::Text(text) => put_text(out, text),
        ExprKind::This => put_word(out, "this"),
        ExprKind::Var(name) => put_name(out, name),
        ExprKind::Unary { sign, right } => put_unary(out, *sign, right.get()),
        ExprKind::Binary { sign, left, right } => {
            open(out, sign_text(*sign))?;
            put_expr(out, left.get())?;
            put_expr(out, right.get())?;
            close(out)
        }
        ExprKind::Cond { test, yes, no } => {
            open(out, "?")?;
            put_expr(out, test.get())?;
            put_expr(out, yes.get())?;
            put_expr(out, no.get())?;
            close(out)
        }
        ExprKind::Cast { class, value } => put_cast(out, class, value.get()),
        ExprKind::InstanceOf { value, class } => put_instance_of(out, value.get(), class),
        ExprKind::Field { object, name } => put_field(out, object.get(), name),
        ExprKind::Index { array, index } => {
            open(out, "[]")?;
            put_expr(out, array.get())?;
            put_expr(out, index.get())?;
            close(out)
        }
        ExprKind::Call { object, name, args } => {
            put_receiver(out, object)?;
            put_call(out, name, args.as_slice())?;
            close_receiver(out, object)
        }
        ExprKind::SuperCall { name, args } => put_super_call(out, name, args.as_slice()),
        ExprKind::New { class, args } => put_new(out, class, args.as_slice()),
        ExprKind::NewArray { elem, size } => put_new_array(out, elem, size.get()),
    }
}

#[cycle(exprs)]
fn put_unary(out: &mut String, sign: u8, right: &Expr) -> Result<()> {
    open(out, sign_text(sign))?;
    put_expr(out, right)?;
    close(out)
}

#[cycle(exprs)]
fn put_cast(out: &mut String, class: &Name, value: &Expr) -> Result<()> {
    open(out, "cast")?;
    put_name(out, class)?;
    put_expr(out, value)?;
    close(out)
}

#[cycle(exprs)]
fn put_instance_of(out: &mut String, value: &Expr, class: &Name) -> Result<()> {
    open(out, "instanceof")?;
    put_expr(out, value)?;
    put_name(out, class)?;
    close(out)
}

#[cycle(exprs)]
fn put_field(out: &mut String, object: &Expr, name: &Name) -> Result<()> {
    open(out, ".")?;
    put_expr(out, object)?;
    put_name(out, name)?;
    close(out)
}

/// What stands in front of a call on an object.
#[cycle(exprs)]
fn put_receiver(out: &mut String, object: &Option<Boxed<Expr>>) -> Result<()> {
    match object {
        Some(object) => {
            open(out, ".")?;
            put_expr(out, object.get())
        }
        None => Ok(()),
    }
}

/// What stands behind a call on an object.
fn close_receiver(out: &mut String, object: &Option<Boxed<Expr>>) -> Result<()> {
    match object {
        Some(_) => close(out),
        None => Ok(()),
    }
}

#[cycle(exprs)]
fn put_call(out: &mut String, name: &Name, args: &[Expr]) -> Result<()> {
    open(out, "call")?;
    put_name(out, name)?;
    put_exprs(out, args)?;
    close(out)
}

#[cycle(exprs)]
fn put_super_call(out: &mut String, name: &Name, args: &[Expr]) -> Result<()> {
    open(out, ".")?;
    put_word(out, "super")?;
    put_call(out, name, args)?;
    close(out)
}

#[cycle(exprs)]
fn put_new(out: &mut String, class: &Name, args: &[Expr]) -> Result<()> {
    open(out, "new")?;
    put_name(out, class)?;
    put_exprs(out, args)?;
    close(out)
}

#[cycle(exprs)]
fn put_new_array(out: &mut String, elem: &Ty, size: &Expr) -> Result<()> {
    open(out, "new-array")?;
    put_type(out, elem)?;
    put_expr(out, size)?;
    close(out)
}

#[cycle(exprs)]
fn put_exprs(out: &mut String, all: &[Expr]) -> Result<()> {
    for one in all {
        put_expr(out, one)?;
    }
    Ok(())
}

/// The expression, or `-` where there is none.
fn put_maybe_expr(out: &mut String, expr: &Option<Expr>) -> Result<()> {
    match expr {
        Some(expr) => put_expr(out, expr),
        None => put_word(out, "-"),
    }
}

/// A guard. A path is `ROOT.STEP..`, a sum `(sum SUMMAND ..)`.
#[cycle(guards)]
pub(crate) fn put_guard(out: &mut String, guard: &GuardExpr) -> Result<()> {
    match &guard.kind {
        GuardKind::Truth(value) => put_truth(out, *value),
        GuardKind::Not(right) => {
            open(out, "!")?;
            put_guard(out, right.get())?;
            close(out)
        }
        GuardKind::And(left, right) => {
            open(out, "&&")?;
            put_guard(out, left.get())?;
            put_guard(out, right.get())?;
            close(out)
        }
        GuardKind::Or(left, right) => {
            open(out, "||")?;
            put_guard(out, left.get())?;
            put_guard(out, right.get())?;
            close(out)
        }
        GuardKind::Is { path, class, alias } => put_is(out, path, class, alias),
        GuardKind::Alias { path, name } => put_alias(out, path, name),
        GuardKind::NullTest { path, equal } => put_null_test(out, path, *equal),
        GuardKind::Flag(path) => put_path(out, path),
        GuardKind::Compare { left, sign, right } => {
            open(out, sign_text(*sign))?;
            put_sum(out, left.as_slice())?;
            put_sum(out, right.as_slice())?;
            close(out)
        }
    }
}

fn put_is(out: &mut String, path: &PathText, class: &Name, alias: &Option<Name>) -> Result<()> {
    open(out, "@")?;
    put_path(out, path)?;
    put_name(out, class)?;
    if let Some(alias) = alias {
        put_named(out, "as", alias)?;
    }
    close(out)
}

fn put_alias(out: &mut String, path: &PathText, name: &Name) -> Result<()> {
    open(out, "as")?;
    put_path(out, path)?;
    put_name(out, name)?;
    close(out)
}

fn put_null_test(out: &mut String, path: &PathText, equal: bool) -> Result<()> {
    open(out, if equal { "==" } else { "!=" })?;
    put_path(out, path)?;
    put_word(out, "null")?;
    close(out)
}

fn put_path(out: &mut String, path: &PathText) -> Result<()> {
    out.push_str(" ")?;
    push_path(out, path)
}

/// The path, with nothing in front.
fn push_path(out: &mut String, path: &PathText) -> Result<()> {
    out.push_str(str::from_utf8(path.root.bytes())?)?;
    for step in path.steps.as_slice() {
        out.push_str(".")?;
        out.push_str(str::from_utf8(step.bytes())?)?;
    }
    Ok(())
}

fn put_sum(out: &mut String, summands: &[Summand]) -> Result<()> {
    open(out, "sum")?;
    for summand in summands {
        put_summand(out, summand)?;
    }
    close(out)
}

/// A summand, as `-2*a.b`.
fn put_summand(out: &mut String, summand: &Summand) -> Result<()> {
    out.push_str(if summand.negative { " -" } else { " " })?;
    match (&summand.factor, &summand.path) {
        (Some((value, hex)), Some(path)) => {
            push_digits(out, *value, *hex)?;
            out.push_str("*")?;
            push_path(out, path)
        }
        (Some((value, hex)), None) => push_digits(out, *value, *hex),
        (None, Some(path)) => push_path(out, path),
        (None, None) => Ok(()),
    }
}

/// A statement. What may be left out in front of others is `-` where it is.
#[cycle(stmts)]
fn put_stmt(out: &mut String, stmt: &Stmt) -> Result<()> {
    match &stmt.kind {
        StmtKind::Block(block) => put_block(out, block.as_slice()),
        StmtKind::Empty => put_word(out, "()"),
        StmtKind::Local { ty, name, value } => put_local(out, ty, name, value),
        StmtKind::If { test, yes, no } => {
            open(out, "if")?;
            put_expr(out, test)?;
            put_stmt(out, yes.get())?;
            put_else(out, no)?;
            close(out)
        }
        StmtKind::While { test, body } => {
            open(out, "while")?;
            put_expr(out, test)?;
            put_stmt(out, body.get())?;
            close(out)
        }
        StmtKind::For {
            init,
            test,
            change,
            body,
        } => {
            open(out, "for")?;
            put_maybe_stmt(out, init)?;
            put_maybe_expr(out, test)?;
            put_maybe_stmt(out, change)?;
            put_stmt(out, body.get())?;
            close(out)
        }
        StmtKind::Break => put_word(out, "break"),
        StmtKind::Continue => put_word(out, "continue"),
        StmtKind::Return(value) => put_return(out, value),
        StmtKind::Assign { left, sign, right } => put_assign(out, left, *sign, right),
        StmtKind::Bump { left, up } => put_bump(out, left, *up),
        StmtKind::Run(value) => put_expr(out, value),
    }
}

#[cycle(stmts)]
fn put_block(out: &mut String, block: &[Stmt]) -> Result<()> {
    open(out, "block")?;
    put_stmts(out, block)?;
    close(out)
}

#[cycle(stmts)]
pub(crate) fn put_stmts(out: &mut String, all: &[Stmt]) -> Result<()> {
    for one in all {
        put_stmt(out, one)?;
    }
    Ok(())
}

#[cycle(stmts)]
fn put_else(out: &mut String, branch: &Option<Boxed<Stmt>>) -> Result<()> {
    match branch {
        Some(branch) => put_stmt(out, branch.get()),
        None => Ok(()),
    }
}

/// The statement, or `-` where there is none.
#[cycle(stmts)]
fn put_maybe_stmt(out: &mut String, stmt: &Option<Boxed<Stmt>>) -> Result<()> {
    match stmt {
        Some(stmt) => put_stmt(out, stmt.get()),
        None => put_word(out, "-"),
    }
}

fn put_local(out: &mut String, ty: &Ty, name: &Name, value: &Option<Expr>) -> Result<()> {
    open(out, "local")?;
    put_type(out, ty)?;
    put_name(out, name)?;
    if let Some(value) = value {
        put_expr(out, value)?;
    }
    close(out)
}

fn put_return(out: &mut String, value: &Option<Expr>) -> Result<()> {
    open(out, "return")?;
    if let Some(value) = value {
        put_expr(out, value)?;
    }
    close(out)
}

fn put_assign(out: &mut String, left: &Expr, sign: u8, right: &Expr) -> Result<()> {
    open(out, sign_text(sign))?;
    put_expr(out, left)?;
    put_expr(out, right)?;
    close(out)
}

fn put_bump(out: &mut String, left: &Expr, up: bool) -> Result<()> {
    open(out, if up { "++" } else { "--" })?;
    put_expr(out, left)?;
    close(out)
}

/// Its classes and interfaces.
pub(crate) fn put_unit(out: &mut String, unit: &SourceUnit) -> Result<()> {
    for decl in unit.decls.as_slice() {
        put_decl(out, decl)?;
    }
    Ok(())
}

fn put_decl(out: &mut String, decl: &Decl) -> Result<()> {
    open(
        out,
        if decl.is_interface {
            "interface"
        } else {
            "class"
        },
    )?;
    put_flag(out, decl.is_abstract, "abstract")?;
    put_flag(out, decl.is_final, "final")?;
    put_name(out, &decl.name)?;
    if let Some(superclass) = &decl.superclass {
        put_named(out, "extends", superclass)?;
    }
    for interface in decl.interfaces.as_slice() {
        put_named(out, "under", interface)?;
    }
    put_members(out, decl.members.as_slice())?;
    close(out)
}

/// The word, where it is so.
fn put_flag(out: &mut String, is_so: bool, word: &str) -> Result<()> {
    if is_so {
        put_word(out, word)?;
    }
    Ok(())
}

fn put_members(out: &mut String, members: &[Member]) -> Result<()> {
    for member in members {
        open(out, part_word(&member.part))?;
        put_flag(out, member.is_private, "private")?;
        put_result(out, &member.part)?;
        put_name(out, &member.name)?;
        put_params(out, member.params.as_slice())?;
        put_body(out, &member.part)?;
        close(out)?;
    }
    Ok(())
}

fn part_word(part: &MemberPart) -> &'static str {
    match part {
        MemberPart::Field {
            is_static: false,
            ..
        } => "field",
        MemberPart::Field {
            is_static: true,
            ..
        } => "static-field",
        MemberPart::Static { .. } => "static",
        MemberPart::Abstract { .. } => "abstract",
        MemberPart::Body { .. } => "body",
        MemberPart::Constructor { .. } => "constructor",
    }
}

/// The type of a field, or of what a method answers.
fn put_result(out: &mut String, part: &MemberPart) -> Result<()> {
    match part {
        MemberPart::Field { ty, .. } => put_type(out, ty),
        MemberPart::Static {
            result: returned,
            ..
        } => put_type(out, returned),
        MemberPart::Abstract { result: returned } => put_type(out, returned),
        MemberPart::Body {
            result: returned,
            ..
        } => put_type(out, returned),
        MemberPart::Constructor { .. } => Ok(()),
    }
}

fn put_params(out: &mut String, params: &[Param]) -> Result<()> {
    for param in params {
        open(out, "takes")?;
        put_type(out, &param.ty)?;
        put_name(out, &param.name)?;
        close(out)?;
    }
    Ok(())
}

/// The guard and the statements of a method, or the arguments of `super` and the statements of a constructor.
fn put_body(out: &mut String, part: &MemberPart) -> Result<()> {
    match part {
        MemberPart::Field { .. } | MemberPart::Abstract { .. } => Ok(()),
        MemberPart::Static { block, .. } => put_block(out, block.as_slice()),
        MemberPart::Body { guard, block, .. } => {
            if let Some(guard) = guard {
                open(out, "when")?;
                put_guard(out, guard)?;
                close(out)?;
            }
            put_block(out, block.as_slice())
        }
        MemberPart::Constructor { super_args, block } => {
            if let Some(args) = super_args {
                open(out, "super")?;
                put_exprs(out, args.as_slice())?;
                close(out)?;
            }
            put_block(out, block.as_slice())
        }
    }
}
