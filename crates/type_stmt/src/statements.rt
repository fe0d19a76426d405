ghost use Rattle.std.specs.Prelude.{◌≡◌, ◌≤◌, map, length, take, drop, IfOk, OnOk};
ghost use Rattle.std.specs.Option.{option_map};
ghost use Rattle.jp_meaning.specs.declared.stmt.TypedStmtKind.TheVariants as made;
ghost use Rattle.type_rules.specs.Statements.{count, in_loop, after_init, flow_most, scope_along, most_along, pushed, statement_at, flow};
ghost use Rattle.type_stmt.specs.Walking.{Walks, WalksOption, WalksAll};

use crate::branching::branch;
use crate::changing::{alone, assign, bump};
use crate::declaring::local;
use crate::jumping::{jump, returned};
use crate::loops::{for_loop, while_loop};
use crate::options::{boxed, see_option};
use crate::room::{body_fits, option_fits, stmt_fits};
use crate::scopes::cut;
use jp_ast::{Place, Stmt, StmtKind};
use jp_meaning::{TypedStmt, TypedStmtKind};
use sqlite_items::{Boxed, Items};
use std::alloc::{AllocError, Global};
use type_expr::see;
use type_heads::First;
use type_rules::{Role, Scope};

/// The resolved statement, where it has no fault, and the first fault so far, which takes in those of its nodes. The scope
/// is left as it is behind the statement, with what that declares. At most 255 variables are in scope at once, so that
/// each has a slot. The scope isn't to be used after a want of memory.
#[cycle(walk)]
fn walk(
    alloc: Global,
    scope: &mut Scope,
    stmt: &Stmt,
    first: &mut First,
) -> Result<Option<TypedStmt>, AllocError>
    requires variables { length scope.old.variables ≤ 255 }
    requires most { (flow stmt.now scope.old).most ≤ 255 }
    ensures walks { IfOk result (λ made. Walks scope.old stmt.now first.old.fault first.new.fault made) }
    ensures after { OnOk result (scope.new ≡ (flow stmt.now scope.old).after) }
{
    let place = stmt.place;
    match &stmt.kind {
        StmtKind::Block(all) => {
            let all = walk_inside(alloc, scope, all.as_slice(), first)?;
            Ok(block(place, all))
        }
        StmtKind::Empty => Ok(Some(TypedStmt {
            place,
            kind: TypedStmtKind::Empty,
        })),
        StmtKind::Local { ty, name, value } => {
            let value = see_option(alloc, scope, value, first)?;
            local(alloc, scope, place, ty, name, value, first)
        }
        StmtKind::If { test, yes, no } => {
            let test = see(alloc, scope, Role::Operand, test, first)?;
            let yes = inside(alloc, scope, yes.get(), first)?;
            let no = inside_option(alloc, scope, no, first)?;
            Ok(branch(scope, place, test, yes, no, first))
        }
        StmtKind::While { test, body } => {
            let test = see(alloc, scope, Role::Operand, test, first)?;
            let body = loop_body(alloc, scope, body.get(), first)?;
            Ok(while_loop(scope, place, test, body, first))
        }
        StmtKind::For {
            init,
            test,
            change,
            body,
        } => {
            let mark = scope.variables.len();
            let init = walk_option(alloc, scope, init, first)?;
            let test = see_option(alloc, scope, test, first)?;
            option_fits(scope, change);
            let change = inside_option(alloc, scope, change, first)?;
            let body = body.get();
            body_fits(scope, body);
            let body = loop_body(alloc, scope, body, first)?;
            cut(&mut scope.variables, mark);
            Ok(for_loop(scope, place, init, test, change, body, first))
        }
        StmtKind::Break => Ok(jump(scope, place, true, first)),
        StmtKind::Continue => Ok(jump(scope, place, false, first)),
        StmtKind::Return(value) => {
            let value = see_option(alloc, scope, value, first)?;
            Ok(returned(scope, place, value, first))
        }
        StmtKind::Assign { left, sign, right } => {
            let to = see(alloc, scope, Role::Operand, left, first)?;
            let value = see(alloc, scope, Role::Operand, right, first)?;
            Ok(assign(scope, place, left, to, *sign, value, first))
        }
        StmtKind::Bump { left, up } => {
            let to = see(alloc, scope, Role::Operand, left, first)?;
            Ok(bump(scope, place, left, to, *up, first))
        }
        StmtKind::Run(expr) => {
            let part = see(alloc, scope, Role::Alone, expr, first)?;
            Ok(alone(scope, place, expr, part, first))
        }
    }
}

/// The resolved statements, where none has a fault, each in the scope that the one before leaves, and the first fault so
/// far, which takes in those of their nodes. The scope is left as it is behind them.
#[cycle(walk)]
pub fn walk_all(
    alloc: Global,
    scope: &mut Scope,
    block: &[Stmt],
    first: &mut First,
) -> Result<Option<Items<TypedStmt>>, AllocError>
    requires variables { length scope.old.variables ≤ 255 }
    requires most { most_along (count scope.old) (map flow block.now) scope.old ≤ 255 }
    ensures walks { IfOk result (λ made. WalksAll scope.old block.now first.old.fault first.new.fault made) }
    ensures after { OnOk result (scope.new ≡ scope_along (map flow block.now) scope.old) }
{
    let mut done = Some(Items::new(alloc));
    for stmt in block {
        stmt_fits(scope, stmt);
        let made = walk(alloc, scope, stmt, first)?;
        done = pushed(done, made)?;
    }
    Ok(done)
}

/// The resolved statements so far and one more, where none has a fault.
fn pushed(
    done: Option<Items<TypedStmt>>,
    made: Option<TypedStmt>,
) -> Result<Option<Items<TypedStmt>>, AllocError>
    ensures { IfOk result (λ more. more ≡ pushed done made) }
{
    let Some(mut done) = done else {
        return Ok(None);
    };
    let Some(made) = made else {
        return Ok(None);
    };
    done.push(made)?;
    Ok(Some(done))
}

/// Statements in braces: what they declare is in scope between these alone.
#[cycle(walk)]
fn walk_inside(
    alloc: Global,
    scope: &mut Scope,
    block: &[Stmt],
    first: &mut First,
) -> Result<Option<Items<TypedStmt>>, AllocError>
    requires variables { length scope.old.variables ≤ 255 }
    requires most { most_along (count scope.old) (map flow block.now) scope.old ≤ 255 }
    ensures walks { IfOk result (λ made. WalksAll scope.old block.now first.old.fault first.new.fault made) }
    ensures kept { OnOk result (scope.new ≡ scope.old) }
{
    let mark = scope.variables.len();
    let made = walk_all(alloc, scope, block, first)?;
    cut(&mut scope.variables, mark);
    Ok(made)
}

fn block(place: Place, all: Option<Items<TypedStmt>>) -> Option<TypedStmt>
    ensures { result ≡ option_map (statement_at place) (option_map (λ ts. made.Block ts) all) }
{
    let kind = TypedStmtKind::Block(all?);
    Some(TypedStmt { place, kind })
}

/// A statement that is part of another: what it declares is in scope in it alone.
#[cycle(walk)]
fn inside(
    alloc: Global,
    scope: &mut Scope,
    stmt: &Stmt,
    first: &mut First,
) -> Result<Option<Boxed<TypedStmt>>, AllocError>
    requires variables { length scope.old.variables ≤ 255 }
    requires most { (flow stmt.now scope.old).most ≤ 255 }
    ensures walks { IfOk result (λ made. Walks scope.old stmt.now first.old.fault first.new.fault made) }
    ensures kept { OnOk result (scope.new ≡ scope.old) }
{
    let mark = scope.variables.len();
    let made = walk(alloc, scope, stmt, first)?;
    cut(&mut scope.variables, mark);
    boxed(alloc, made)
}

/// The body of a loop, in which `break` and `continue` may stand.
#[cycle(walk)]
fn loop_body(
    alloc: Global,
    scope: &mut Scope,
    body: &Stmt,
    first: &mut First,
) -> Result<Option<Boxed<TypedStmt>>, AllocError>
    requires variables { length scope.old.variables ≤ 255 }
    requires most { (flow body.now (in_loop scope.old)).most ≤ 255 }
    ensures walks { IfOk result (λ made. Walks (in_loop scope.old) body.now first.old.fault first.new.fault made) }
    ensures kept { OnOk result (scope.new ≡ scope.old) }
{
    let outside = scope.is_in_loop;
    scope.is_in_loop = true;
    let made = inside(alloc, scope, body, first)?;
    scope.is_in_loop = outside;
    Ok(made)
}

/// A statement that may be left out. The scope is left as it is behind it.
#[cycle(walk)]
fn walk_option(
    alloc: Global,
    scope: &mut Scope,
    stmt: &Option<Boxed<Stmt>>,
    first: &mut First,
) -> Result<Option<Option<Boxed<TypedStmt>>>, AllocError>
    requires variables { length scope.old.variables ≤ 255 }
    requires most { flow_most (option_map flow stmt.now) scope.old ≤ 255 }
    ensures walks { IfOk result (λ made. WalksOption scope.old stmt.now first.old.fault first.new.fault made) }
    ensures after { OnOk result (scope.new ≡ after_init (option_map flow stmt.now) scope.old) }
{
    let Some(stmt) = stmt else {
        return Ok(Some(None));
    };
    let made = walk(alloc, scope, stmt.get(), first)?;
    match boxed(alloc, made)? {
        Some(made) => Ok(Some(Some(made))),
        None => Ok(None),
    }
}

/// A part of another statement that may be left out: what it declares is in scope in it alone.
#[cycle(walk)]
fn inside_option(
    alloc: Global,
    scope: &mut Scope,
    stmt: &Option<Boxed<Stmt>>,
    first: &mut First,
) -> Result<Option<Option<Boxed<TypedStmt>>>, AllocError>
    requires variables { length scope.old.variables ≤ 255 }
    requires most { flow_most (option_map flow stmt.now) scope.old ≤ 255 }
    ensures walks { IfOk result (λ made. WalksOption scope.old stmt.now first.old.fault first.new.fault made) }
    ensures kept { OnOk result (scope.new ≡ scope.old) }
{
    let mark = scope.variables.len();
    let made = walk_option(alloc, scope, stmt, first)?;
    cut(&mut scope.variables, mark);
    Ok(made)
}
