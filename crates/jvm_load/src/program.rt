ghost use Rattle.std.specs.Prelude.{◌≡◌, ◌<◌, ◌≤◌, ◌*◌, [], ◌∷◌, length, reverse, IfOk, IfSome, Some, slice_get};
ghost use Rattle.std.specs.Option.{option_map};
ghost use Rattle.jp_store.specs.Classes.{line, is_below, is_below_in, offset_in};
ghost use Rattle.jvm_load.specs.FileClasses.{classes_of};
ghost use Rattle.jvm_load.specs.Lines.{lines_of};
ghost use Rattle.jvm_load.specs.Loadable.{IsLoadable, IsLoadableFile};
ghost use Rattle.jvm_load.specs.Places.{AreRanked};
ghost use Rattle.jvm_load.specs.Tables.{key_of, key_cmp, first_entry, found_above, IsTable};
ghost use Rattle.jvm_load.specs.declared.tables.Listing.TheVariants.{OfClasses, OfMethods, OfFields};

use crate::above::all_above;
use crate::number_set::NumberSet;
use crate::offsets::{Offsets, all_offsets};
use crate::ranks::all_ranks;
use crate::tables::{Listing, Table, TableEntry, all_tables, table_of};
use crate::walk::walk_up;
use class_form::ClassFile;
use jp_store::ClassAt;
use std::alloc::{AllocError, Global};
use std::marker::Model;

/// Positions of files, which contracts see as their list.
#[derive(Drop)]
pub(crate) struct Positions {
    items: Vec<u32>,
}

impl Model for Positions {
    ghost use Rattle.std.specs.Prelude.{List, ℕ};

    ghost Value = { List ℕ };

    ghost view = { λ p. p.items.items };
}

impl Positions {
    pub(crate) fn new(items: Vec<u32>) -> Positions
        ensures { result ≡ items.items }
    {
        Positions { items }
    }

    pub(crate) fn as_slice(&self) -> &[u32]
        ensures { result.now ≡ self.now }
    {
        self.items.as_slice()
    }
}

/// Class files that are loaded, which contracts see as their list.
#[derive(Drop)]
pub struct Program {
    files: Vec<ClassFile>,
    lines: Vec<Positions>,
    above: Vec<NumberSet>,
    names: Table,
    methods: Vec<Table>,
    fields: Vec<Table>,
    ranks: Vec<Positions>,
    offsets: Vec<Offsets>,
}

impl Model for Program {
    ghost use Rattle.std.specs.Prelude.{◌≡◌, List, [], ◌∷◌, length};
    ghost use Rattle.class_form.specs.declared.class_file.ClassFile.{ClassFile as File};
    ghost use Rattle.jvm_load.specs.FileClasses.{classes_of};
    ghost use Rattle.jvm_load.specs.Lines.{lines_of};
    ghost use Rattle.jvm_load.specs.Above.{AreAbove};
    ghost use Rattle.jvm_load.specs.Places.{AreRanked, AreOffsetLists};
    ghost use Rattle.jvm_load.specs.Loadable.{IsLoadable};
    ghost use Rattle.jvm_load.specs.Tables.{key_of, key_cmp, first_entry, IsTable, AreTables};
    ghost use Rattle.jvm_load.specs.declared.tables.Listing.TheVariants.{OfClasses, OfMethods, OfFields};

    ghost Value = { List File };

    ghost view = { λ p. p.files.items };

    ghost invariant = { λ p.
        IsLoadable p.files.items × (p.lines.items ≡ lines_of (classes_of p.files.items) (length p.files.items))
        × AreAbove (classes_of p.files.items) (length p.files.items) p.above.items
        × IsTable key_cmp (key_of OfClasses p.files.items) (first_entry OfClasses p.files.items (0 ∷ [])) p.names
        × AreTables OfMethods p.files.items (length p.files.items) p.methods.items
        × AreTables OfFields p.files.items (length p.files.items) p.fields.items
        × AreRanked p.files.items (length p.files.items) p.ranks.items
        × AreOffsetLists (classes_of p.files.items) (length p.files.items) p.offsets.items };
}

impl Program {
    /// The files, in the order in which they were loaded.
    pub fn files(&self) -> &[ClassFile]
        ensures files { result.now ≡ self.now }
        ensures loadable { IsLoadable result.now }
    {
        self.files.as_slice()
    }

    /// The file at a position.
    pub fn file(&self, at: u32) -> Option<&ClassFile>
        ensures file { option_map (λ file. file.now) result ≡ slice_get self.now at }
        ensures loadable { IfSome result (λ file. IsLoadableFile file.now) }
    {
        self.files.get(at as usize)
    }

    /// The class at a position and those upwards from it, each once.
    pub fn line(&self, at: u32) -> &[u32]
        requires { at < length self.now }
        ensures { result.now ≡ line (classes_of self.now) at }
    {
        let line = &self.lines[at as usize];
        line.as_slice()
    }

    // How many values of an object of a class stand before those of another one, where that one stands in the class's
    // line as far from the top as in its own; `None` elsewhere.
    pub(crate) fn offset_at(&self, at: u32, class: u32) -> Option<usize>
        requires within { at < length self.now }
        requires class_within { class < length self.now }
        ensures offset { IfSome result (λ n. offset_in (classes_of self.now) class (reverse (line (classes_of self.now) at)) ≡ Some n) }
        ensures most { IfSome result (λ n. n ≤ length (line (classes_of self.now) at) * 4294967295) }
    {
        let from_top = self.line(class).len().checked_sub(1)?;
        let line = self.line(at);
        let place = line.len().checked_sub(1)?.checked_sub(from_top)?;
        let found = *line.get(place)?;
        if found != class {
            return None;
        }
        let offsets = &self.offsets[at as usize];
        offsets.as_slice().get(from_top).copied()
    }

    // For each file, how many of its fields before each are static as it is.
    pub(crate) fn ranks(&self) -> &[Positions]
        ensures { AreRanked self.now (length self.now) result.now }
    {
        self.ranks.as_slice()
    }

    // The classes by name.
    pub(crate) fn names(&self) -> &[TableEntry]
        ensures { IsTable key_cmp (key_of OfClasses self.now) (first_entry OfClasses self.now (0 ∷ [])) result.now }
    {
        self.names.as_slice()
    }

    // The methods that are found upwards from a class, by name and descriptor.
    pub(crate) fn methods_above(&self, class: u32) -> &[TableEntry]
        requires { class < length self.now }
        ensures { IsTable key_cmp (key_of OfMethods self.now) (found_above OfMethods self.now class) result.now }
    {
        let table = &self.methods[class as usize];
        table.as_slice()
    }

    // The fields that are found upwards from a class, by name.
    pub(crate) fn fields_above(&self, class: u32) -> &[TableEntry]
        requires { class < length self.now }
        ensures { IsTable key_cmp (key_of OfFields self.now) (found_above OfFields self.now class) result.now }
    {
        let table = &self.fields[class as usize];
        table.as_slice()
    }

    /// Whether a class is another one or below it, through super classes and interfaces. All are below Object.
    pub fn is_below(&self, class: ClassAt, up: ClassAt) -> bool
        ensures { result ≡ is_below (classes_of self.now) class up }
    {
        match up {
            ClassAt::Root => true,
            ClassAt::Listed(up) => match class {
                ClassAt::Root => false,
                ClassAt::Listed(at) => self.is_above(at, up),
            },
        }
    }

    // Whether a class is another one or above it.
    fn is_above(&self, at: u32, up: u32) -> bool
        ensures { result ≡ is_below_in (length self.now) (classes_of self.now) up at }
    {
        if at as usize >= self.files.len() {
            return at == up;
        }
        let above = &self.above[at as usize];
        above.contains(up)
    }
}

/// Copies the class files of a program: fewer than 2^32, each with fewer than 2^32 fields and fewer than 2^32 methods,
/// and no code of 2^32 bytes or more.
pub fn load(alloc: Global, files: &[ClassFile]) -> Result<Program, AllocError>
    requires { IsLoadable files.now }
    ensures { IfOk result (λ program. program ≡ files.now) }
{
    let copies = copy_files(alloc, files)?;
    let lines = all_lines(alloc, copies.as_slice())?;
    let above = all_above(alloc, copies.as_slice())?;
    let names = table_of(alloc, Listing::OfClasses, copies.as_slice(), &[0])?;
    let methods = all_tables(
        alloc,
        Listing::OfMethods,
        copies.as_slice(),
        lines.as_slice(),
    )?;
    let fields = all_tables(
        alloc,
        Listing::OfFields,
        copies.as_slice(),
        lines.as_slice(),
    )?;
    let ranks = all_ranks(alloc, copies.as_slice())?;
    let offsets = all_offsets(alloc, copies.as_slice(), lines.as_slice())?;
    Ok(Program {
        files: copies,
        lines,
        above,
        names,
        methods,
        fields,
        ranks,
        offsets,
    })
}

fn copy_files(alloc: Global, files: &[ClassFile]) -> Result<Vec<ClassFile>, AllocError>
    ensures { IfOk result (λ copies. copies.items ≡ files.now) }
{
    let mut copies = Vec::new(alloc);
    for file in files {
        copies.push(file.copy(alloc)?)?;
    }
    Ok(copies)
}

fn all_lines(alloc: Global, files: &[ClassFile]) -> Result<Vec<Positions>, AllocError>
    requires { IsLoadable files.now }
    ensures { IfOk result (λ lines. lines.items ≡ lines_of (classes_of files.now) (length files.now)) }
{
    let mut lines = Vec::new(alloc);
    for at in 0..files.len() {
        lines.push(Positions::new(walk_up(alloc, files, at as u32)?))?;
    }
    Ok(lines)
}
