ghost use Rattle.std.specs.Prelude.{◌≡◌, ◌<◌, ◌^◌, ◌==◌, length, All, IfOk, IfSome};
ghost use Rattle.jp_store.specs.Classes.{line};
ghost use Rattle.jvm_load.specs.FileClasses.{classes_of};

use crate::names::super_place;
use class_form::ClassFile;
use std::alloc::{AllocError, Global};

// The class at a position and those upwards from it, each once.
pub(crate) fn walk_up(alloc: Global, files: &[ClassFile], at: u32) -> Result<Vec<u32>, AllocError>
    requires { length files.now < 2 ^ 32 }
    ensures { IfOk result (λ up. up.items ≡ line (classes_of files.now) at) }
{
    let mut up = Vec::new(alloc);
    let mut next = Some(at);
    for _i in 0..files.len() {
        let Some(at) = next else {
            return Ok(up);
        };
        if up.as_slice().contains(&at) {
            return Ok(up);
        }
        up.push(at)?;
        next = super_place(files, at);
    }
    Ok(up)
}
