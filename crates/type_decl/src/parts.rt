ghost use Rattle.std.specs.Prelude.{◌≡◌, ◌≤◌, length, IfOk};
ghost use Rattle.std.specs.Option.{option_copied};
ghost use Rattle.type_rules.specs.Units.{super_part, block_part};
ghost use Rattle.type_decl.specs.Parts.{SeesSuper};

use crate::listed::Listed;
use jp_ast::{Expr, MemberPart, Stmt};
use std::alloc::{AllocError, Global};
use type_expr::see_all;
use type_heads::First;
use type_rules::{Role, Scope, Seen};

/// The statements of a member, which are none of a field and of a method without a body.
pub(crate) fn block_of(part: &MemberPart) -> &[Stmt]
    ensures { result.now ≡ block_part part.now }
{
    match part {
        MemberPart::Static { block, .. }
        | MemberPart::Body { block, .. }
        | MemberPart::Constructor { block, .. } => block.as_slice(),
        MemberPart::Field { .. } | MemberPart::Abstract { .. } => &[],
    }
}

/// The arguments of `super(..)`, where it is written.
pub(crate) fn super_of(part: &MemberPart) -> Option<&[Expr]>
    ensures { option_copied result ≡ super_part part.now }
{
    match part {
        MemberPart::Constructor { super_args, .. } => match super_args {
            Some(args) => Some(args.as_slice()),
            None => None,
        },
        _ => None,
    }
}

/// What is seen of the arguments of `super(..)`, where it is written, and the first fault so far, which takes in those of
/// their nodes.
pub(crate) fn see_super(
    alloc: Global,
    scope: &Scope,
    part: &MemberPart,
    first: &mut First,
) -> Result<Option<Listed<Seen>>, AllocError>
    requires { length scope.now.variables ≤ 255 }
    ensures { IfOk result (λ found. SeesSuper scope.now (super_part part.now) first.old.fault first.new.fault found) }
{
    let Some(args) = super_of(part) else {
        return Ok(None);
    };
    let found = see_all(alloc, scope, Role::Operand, args, first)?;
    Ok(Some(Listed::from_vec(found)))
}
