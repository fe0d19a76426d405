ghost use Rattle.std.specs.Prelude.{◌≡◌, ℕ, ◌≤◌, length, IfOk};
ghost use Rattle.jp_store.specs.Classes.{line};
ghost use Rattle.jvm_load.specs.FileClasses.{classes_of};
ghost use Rattle.jvm_load.specs.Lines.{lines_of};
ghost use Rattle.jvm_load.specs.Loadable.{IsLoadable};
ghost use Rattle.jvm_load.specs.Places.{AreOffsets, AreOffsetLists};

use crate::fields::own_count;
use crate::program::Positions;
use class_form::ClassFile;
use std::alloc::{AllocError, Global};
use std::marker::Model;

/// How many values of an object stand before those of each class of its line, from the topmost class down; contracts
/// see their list.
#[derive(Drop)]
pub(crate) struct Offsets {
    counts: Vec<usize>,
}

impl Model for Offsets {
    ghost use Rattle.std.specs.Prelude.{List, ℕ};

    ghost Value = { List ℕ };

    ghost view = { λ o. o.counts.items };
}

impl Offsets {
    pub(crate) fn new(counts: Vec<usize>) -> Offsets
        ensures { result ≡ counts.items }
    {
        Offsets { counts }
    }

    pub(crate) fn as_slice(&self) -> &[usize]
        ensures { result.now ≡ self.now }
    {
        self.counts.as_slice()
    }
}

// The offsets in an object of a class, by the class's line.
fn offsets_of(
    alloc: Global,
    files: &[ClassFile],
    at: u32,
    up: &[u32],
) -> Result<Vec<usize>, AllocError>
    requires loadable { IsLoadable files.now }
    requires line { up.now ≡ line (classes_of files.now) at }
    ensures { IfOk result (λ offsets. AreOffsets (classes_of files.now) (line (classes_of files.now) at) offsets.items) }
{
    let _ = at;
    let mut offsets = Vec::new(alloc);
    let mut before = 0;
    let mut rest = up;
    while let Some((class, below)) = rest.split_last() {
        offsets.push(before)?;
        before += own_count(files, *class);
        rest = below;
    }
    Ok(offsets)
}

pub(crate) fn all_offsets(
    alloc: Global,
    files: &[ClassFile],
    lines: &[Positions],
) -> Result<Vec<Offsets>, AllocError>
    requires loadable { IsLoadable files.now }
    requires lines { lines.now ≡ lines_of (classes_of files.now) (length files.now) }
    ensures { IfOk result (λ offsets. AreOffsetLists (classes_of files.now) (length files.now) offsets.items) }
{
    let mut offsets = Vec::new(alloc);
    for at in 0..lines.len() {
        let line = &lines[at];
        offsets.push(Offsets::new(offsets_of(alloc, files, at as u32, line.as_slice())?))?;
    }
    Ok(offsets)
}
