ghost use Rattle.std.specs.Prelude.{◌≡◌, ◌<◌, ◌^◌, length, IfOk};
ghost use Rattle.jvm_load.specs.Loadable.{IsLoadable};
ghost use Rattle.jvm_load.specs.Places.{IsRanked, AreRanked};

use crate::names::is_static_member;
use crate::program::Positions;
use class_form::{ClassFile, MemberInfo};
use std::alloc::{AllocError, Global};

// For each field how many before it are static as it is.
fn ranks_of(alloc: Global, fields: &[MemberInfo]) -> Result<Vec<u32>, AllocError>
    requires { length fields.now < 2 ^ 32 }
    ensures { IfOk result (λ ranks. IsRanked fields.now ranks.items) }
{
    let mut ranks = Vec::new(alloc);
    let mut statics: u32 = 0;
    let mut others: u32 = 0;
    for field in fields {
        if is_static_member(field) {
            ranks.push(statics)?;
            statics += 1;
        } else {
            ranks.push(others)?;
            others += 1;
        }
    }
    Ok(ranks)
}

pub(crate) fn all_ranks(alloc: Global, files: &[ClassFile]) -> Result<Vec<Positions>, AllocError>
    requires { IsLoadable files.now }
    ensures { IfOk result (λ ranks. AreRanked files.now (length files.now) ranks.items) }
{
    let mut ranks = Vec::new(alloc);
    for file in files {
        ranks.push(Positions::new(ranks_of(alloc, file.fields.as_slice())?))?;
    }
    Ok(ranks)
}
