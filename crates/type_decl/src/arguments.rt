ghost use Rattle.std.specs.Prelude.{◌≡◌, [], Some, IfOk};
ghost use Rattle.std.specs.Option.{option_map_or};
ghost use Rattle.type_rules.specs.Expressions.{with_argument, arguments};

use crate::listed::Listed;
use jp_meaning::TypedExpr;
use sqlite_items::Items;
use std::alloc::{AllocError, Global};
use type_rules::Seen;

/// The resolved arguments of `super(..)`, where each is a value; none where it isn't written.
pub(crate) fn super_trees(
    alloc: Global,
    args: Option<Listed<Seen>>,
) -> Result<Option<Items<TypedExpr>>, AllocError>
    ensures { IfOk result (λ all. all ≡ arguments (Some []) (option_map_or (λ parts. parts) args [])) }
{
    match args {
        Some(args) => arguments(alloc, args.into_vec()),
        None => Ok(Some(Items::new(alloc))),
    }
}

/// The resolved arguments, where each is a value.
fn arguments(alloc: Global, args: Vec<Seen>) -> Result<Option<Items<TypedExpr>>, AllocError>
    ensures { IfOk result (λ all. all ≡ arguments (Some []) args.items) }
{
    let mut done = Some(Items::new(alloc));
    for part in args {
        done = with_argument(done, part)?;
    }
    Ok(done)
}

fn with_argument(
    done: Option<Items<TypedExpr>>,
    part: Seen,
) -> Result<Option<Items<TypedExpr>>, AllocError>
    ensures { IfOk result (λ more. more ≡ with_argument done part) }
{
    let Some(mut done) = done else {
        return Ok(None);
    };
    let Seen::Value(known) = part else {
        return Ok(None);
    };
    done.push(known.expr.into_inner())?;
    Ok(Some(done))
}
