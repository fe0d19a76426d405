ghost use Rattle.std.specs.Prelude.{◌≡◌, ◌≤◌, length, Some, IfOk};
ghost use Rattle.type_rules.specs.Expressions.{behind, argument_of};
ghost use Rattle.type_expr.specs.Settling.{Sees, SeesAll};

use crate::casts::{cast, instance_of};
use crate::dot_calls::call_on;
use crate::elements::{element, new_array};
use crate::fields::field;
use crate::literals::{null, number, text, this};
use crate::names::name;
use crate::objects::new_object;
use crate::operators::{binary, choice, unary};
use crate::own_calls::call;
use crate::spot::Spot;
use crate::super_calls::super_call;
use crate::values::value;
use jp_ast::{Expr, ExprKind, sign};
use jp_meaning::TypedKind;
use jp_pred::{Name, Ty};
use std::alloc::{AllocError, Global};
use type_heads::{First, is_text_call};
use type_rules::{Role, Scope, Seen};

/// What is seen of an expression in that role, and the first fault so far, which takes in those of its nodes. A scope has
/// at most 255 variables, so that each has a slot.
#[cycle(see)]
pub fn see(
    alloc: Global,
    scope: &Scope,
    role: Role,
    expr: &Expr,
    first: &mut First,
) -> Result<Seen, AllocError>
    requires { length scope.now.variables ≤ 255 }
    ensures { IfOk result (λ found. Sees scope.now role expr.now first.old.fault first.new.fault found) }
{
    let spot = Spot {
        place: expr.place,
        role,
    };
    match &expr.kind {
        ExprKind::Number { value, hex } => number(alloc, scope, spot, *value, *hex, first),
        ExprKind::Truth(truth) => {
            value(alloc, expr.place, Ty::Boolean, TypedKind::Truth(*truth))
        }
        ExprKind::Null => null(alloc, expr.place),
        ExprKind::Text(value) => text(alloc, scope, spot, value, first),
        ExprKind::This => this(alloc, scope, spot, first),
        ExprKind::Var(value) => name(alloc, scope, spot, value, first),
        ExprKind::Unary { sign, right } => {
            let right = see(alloc, scope, behind(*sign), right.get(), first)?;
            unary(alloc, scope, spot, *sign, right, first)
        }
        ExprKind::Binary { sign, left, right } => {
            let left = see(alloc, scope, Role::Operand, left.get(), first)?;
            let right = see(alloc, scope, Role::Operand, right.get(), first)?;
            binary(alloc, scope, spot, *sign, left, right, first)
        }
        ExprKind::Cond { test, yes, no } => {
            let test = see(alloc, scope, Role::Operand, test.get(), first)?;
            let yes = see(alloc, scope, Role::Operand, yes.get(), first)?;
            let no = see(alloc, scope, Role::Operand, no.get(), first)?;
            choice(alloc, scope, spot, test, yes, no, first)
        }
        ExprKind::Cast { class, value } => {
            let part = see(alloc, scope, Role::Operand, value.get(), first)?;
            cast(alloc, scope, spot, class, part, first)
        }
        ExprKind::InstanceOf { value, class } => {
            let part = see(alloc, scope, Role::Operand, value.get(), first)?;
            instance_of(alloc, scope, spot, part, class, first)
        }
        ExprKind::Field { object, name } => {
            let object = see(alloc, scope, Role::BeforeDot, object.get(), first)?;
            field(alloc, scope, spot, object, name, first)
        }
        ExprKind::Index { array, index } => {
            let array = see(alloc, scope, Role::Operand, array.get(), first)?;
            let index = see(alloc, scope, Role::Operand, index.get(), first)?;
            element(alloc, scope, spot, array, index, first)
        }
        ExprKind::Call { object, name, args } => match object {
            None => {
                let args = see_all(alloc, scope, Role::Operand, args.as_slice(), first)?;
                call(alloc, scope, spot, name, args, first)
            }
            Some(before) => {
                let object = see(alloc, scope, Role::BeforeDot, before.get(), first)?;
                let role = argument_of(&object, name);
                let args = see_all(alloc, scope, role, args.as_slice(), first)?;
                call_on(alloc, scope, spot, object, name, args, first)
            }
        },
        ExprKind::SuperCall { name, args } => {
            let args = see_all(alloc, scope, Role::Operand, args.as_slice(), first)?;
            super_call(alloc, scope, spot, name, args, first)
        }
        ExprKind::New { class, args } => {
            let args = see_all(alloc, scope, Role::Operand, args.as_slice(), first)?;
            new_object(alloc, scope, spot, class, args, first)
        }
        ExprKind::NewArray { elem, size } => {
            let size = see(alloc, scope, Role::Operand, size.get(), first)?;
            new_array(alloc, scope, spot, elem, size, first)
        }
    }
}

/// What is seen of several expressions in that role, one after the other.
#[cycle(see)]
pub fn see_all(
    alloc: Global,
    scope: &Scope,
    role: Role,
    all: &[Expr],
    first: &mut First,
) -> Result<Vec<Seen>, AllocError>
    requires { length scope.now.variables ≤ 255 }
    ensures { IfOk result (λ found. SeesAll scope.now role all.now first.old.fault first.new.fault found.items) }
{
    let mut found = Vec::new(alloc);
    for one in all {
        found.push(see(alloc, scope, role, one, first)?)?;
    }
    Ok(found)
}

/// The role of a sign's operand.
fn behind(sign: u8) -> Role
    ensures { result ≡ behind sign }
{
    if sign == sign::MINUS {
        Role::Negated
    } else {
        Role::Operand
    }
}

/// The role of an argument of a call behind a dot.
fn argument_of(object: &Seen, name: &Name) -> Role
    ensures { result ≡ argument_of (Some object.now) name.now }
{
    if is_text_call(object, name) {
        Role::Shown
    } else {
        Role::Operand
    }
}
