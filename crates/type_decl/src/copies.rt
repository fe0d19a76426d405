ghost use Rattle.std.specs.Prelude.{◌≡◌, IfOk};

use jp_pred::{Path, PathStep};
use sqlite_items::Items;
use std::alloc::{AllocError, Global};

/// The same path, in memory of its own.
pub(crate) fn copy_path(alloc: Global, path: &Path) -> Result<Path, AllocError>
    ensures { IfOk result (λ copy. copy ≡ path.now) }
{
    let steps = copy_steps(alloc, path.steps.as_slice())?;
    Ok(Path {
        root: path.root,
        steps,
    })
}

fn copy_steps(alloc: Global, steps: &[PathStep]) -> Result<Items<PathStep>, AllocError>
    ensures { IfOk result (λ copy. copy ≡ steps.now) }
{
    let mut copy = Items::new(alloc);
    for step in steps {
        copy.push(copy_step(alloc, step)?)?;
    }
    Ok(copy)
}

fn copy_step(alloc: Global, step: &PathStep) -> Result<PathStep, AllocError>
    ensures { IfOk result (λ copy. copy ≡ step.now) }
{
    Ok(PathStep {
        class: step.class.copy(alloc)?,
        field: step.field.copy(alloc)?,
    })
}
