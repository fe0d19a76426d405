ghost use Rattle.std.specs.Prelude.{◌≡◌, IfOk};
ghost use Rattle.std.specs.Option.{option_copied};
ghost use Rattle.type_rules.specs.GuardPaths.{narrowed, path_at};
ghost use Rattle.type_guards.specs.Tests.{last_class};

use jp_ast::Place;
use jp_meaning::TypedPath;
use jp_pred::{Name, Path, Ty};
use std::alloc::{AllocError, Global};
use type_heads::copy_ty;
use type_rules::{GuardScope, Narrowed};

/// A path at a place, as the tests before it narrow it.
pub(crate) fn path_at(
    alloc: Global,
    scope: &GuardScope,
    place: Place,
    path: Path,
    declared: Ty,
) -> Result<TypedPath, AllocError>
    ensures { IfOk result (λ typed. typed ≡ path_at scope.now place path declared) }
{
    let ty = narrowed(alloc, scope.tests.as_slice(), &path, &declared)?;
    Ok(TypedPath {
        place,
        path,
        declared,
        ty,
    })
}

/// The type of a path: the class of the last test of it, or else the declared one.
#[tactic(auto, using(crate::proofs::LastTests::narrowed_is))]
fn narrowed(alloc: Global, tests: &[Narrowed], path: &Path, declared: &Ty) -> Result<Ty, AllocError>
    ensures { IfOk result (λ ty. ty ≡ narrowed tests.now path.now declared.now) }
{
    match last_class(tests, path) {
        Some(class) => Ok(Ty::Class(class.copy(alloc)?)),
        None => copy_ty(alloc, declared),
    }
}

/// The class of the last test of the path.
fn last_class<'a>(tests: &'a [Narrowed], path: &Path) -> Option<&'a Name>
    ensures { option_copied result ≡ last_class tests.now path.now }
{
    let mut left = tests.len();
    'tests: while left > 0 {
        left -= 1;
        let test = &tests[left];
        if test.path == *path {
            return Some(&test.class);
        }
    }
    None
}
