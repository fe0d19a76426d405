ghost use Rattle.std.specs.Prelude.{◌≡◌, [], Some, IfOk};
ghost use Rattle.std.specs.List.{list_all};
ghost use Rattle.type_rules.specs.Assigning.{is_text};
ghost use Rattle.type_rules.specs.Expressions.{with_argument, arguments, text_of};

use jp_meaning::TypedExpr;
use jp_pred::Name;
use sqlite_items::Items;
use std::alloc::{AllocError, Global};
use type_heads::is_text;
use type_rules::Seen;

/// The resolved arguments, where each is a value.
pub(crate) fn arguments(
    alloc: Global,
    args: Vec<Seen>,
) -> Result<Option<Items<TypedExpr>>, AllocError>
    ensures { IfOk result (λ all. all ≡ arguments (Some []) args.items) }
{
    let mut done = Some(Items::new(alloc));
    for part in args {
        done = with_argument(done, part)?;
    }
    Ok(done)
}

fn with_argument(
    done: Option<Items<TypedExpr>>,
    part: Seen,
) -> Result<Option<Items<TypedExpr>>, AllocError>
    ensures { IfOk result (λ more. more ≡ with_argument done part) }
{
    let Some(mut done) = done else {
        return Ok(None);
    };
    let Seen::Value(known) = part else {
        return Ok(None);
    };
    done.push(known.expr.into_inner())?;
    Ok(Some(done))
}

/// Whether each argument is a text literal.
pub(crate) fn are_texts(args: &[Seen]) -> bool
    ensures { result ≡ list_all is_text args.now }
{
    for part in args {
        if !is_text(part) {
            return false;
        }
    }
    true
}

/// The text that is shown.
pub(crate) fn text_of(alloc: Global, args: &[Seen]) -> Result<Name, AllocError>
    ensures { IfOk result (λ text. text ≡ text_of args.now) }
{
    match args {
        [Seen::Text(text), ..] => text.copy(alloc),
        _ => Name::from_bytes(alloc, b""),
    }
}
