ghost use Rattle.std.specs.Prelude.{◌≡◌, ℕ, ◌<◌, ◌^◌, ◌++◌, [], ◌∷◌, length, IfOk, IfErr, List};
ghost use Rattle.std.specs.Option.{option_map};
ghost use Rattle.std.specs.List.{flat_map};
ghost use Rattle.jp_store.specs.Classes.{line};
ghost use Rattle.jvm_load.specs.FileClasses.{classes_of};
ghost use Rattle.jvm_load.specs.Lines.{lines_of};
ghost use Rattle.jvm_load.specs.Loadable.{IsLoadable};
ghost use Rattle.jvm_load.specs.declared.tables.TableEntry.{TableEntry as Entry};
ghost use Rattle.jvm_load.specs.declared.tables.Listing.TheVariants.{OfClasses, OfMethods, OfFields};
ghost use Rattle.jvm_load.specs.Tables.{Key, key_of, key_cmp, key_text, keys_at, entries_at, first_entry, first_with, found_above, Rises, IsTable, IsAt, IsGap, AreTables};

use crate::names::{name_of, text};
use crate::program::Positions;
use class_form::ClassFile;
use std::alloc::{AllocError, Global};
use std::cmp::Ordering;
use std::marker::Model;

/// Where a member stands: its file's position, and its own among the methods or the fields of the file.
#[derive(Clone, Copy, Debug, PartialEq, Eq)]
pub struct TableEntry {
    pub file: u32,
    pub member: u32,
}

// What a table lists.
#[derive(Clone, Copy)]
pub(crate) enum Listing {
    OfClasses,
    OfMethods,
    OfFields,
}

// What entries are ordered by: a name and a descriptor, or nothing and a name.
#[derive(Clone, Copy)]
pub(crate) struct KeyText<'a> {
    pub(crate) name: &'a [u8],
    pub(crate) descriptor: &'a [u8],
}

/// A table, which contracts see as the list of its entries.
#[derive(Drop)]
pub(crate) struct Table {
    entries: Vec<TableEntry>,
}

impl Model for Table {
    ghost use Rattle.std.specs.Prelude.{List};
    ghost use Rattle.jvm_load.specs.declared.tables.TableEntry.{TableEntry as Entry};

    ghost Value = { List Entry };

    ghost view = { λ t. t.entries.items };
}

impl Table {
    pub(crate) fn new(entries: Vec<TableEntry>) -> Table
        ensures { result ≡ entries.items }
    {
        Table { entries }
    }

    pub(crate) fn as_slice(&self) -> &[TableEntry]
        ensures { result.now ≡ self.now }
    {
        self.entries.as_slice()
    }
}

const NO_TEXT: KeyText<'static> = KeyText {
    name: &[],
    descriptor: &[],
};

fn class_key(files: &[ClassFile], entry: TableEntry) -> KeyText<'_>
    ensures { key_text result ≡ key_of OfClasses files.now entry }
{
    match files.get(entry.member as usize) {
        Some(file) => KeyText {
            name: &[],
            descriptor: name_of(file),
        },
        None => NO_TEXT,
    }
}

fn method_key(files: &[ClassFile], entry: TableEntry) -> KeyText<'_>
    ensures { key_text result ≡ key_of OfMethods files.now entry }
{
    let Some(file) = files.get(entry.file as usize) else {
        return NO_TEXT;
    };
    match file.methods.get(entry.member as usize) {
        Some(member) => KeyText {
            name: text(file, member.name),
            descriptor: text(file, member.descriptor),
        },
        None => NO_TEXT,
    }
}

fn field_key(files: &[ClassFile], entry: TableEntry) -> KeyText<'_>
    ensures { key_text result ≡ key_of OfFields files.now entry }
{
    let Some(file) = files.get(entry.file as usize) else {
        return NO_TEXT;
    };
    match file.fields.get(entry.member as usize) {
        Some(member) => KeyText {
            name: &[],
            descriptor: text(file, member.name),
        },
        None => NO_TEXT,
    }
}

fn key_at(listing: Listing, files: &[ClassFile], entry: TableEntry) -> KeyText<'_>
    ensures { key_text result ≡ key_of listing files.now entry }
{
    match listing {
        Listing::OfClasses => class_key(files, entry),
        Listing::OfMethods => method_key(files, entry),
        Listing::OfFields => field_key(files, entry),
    }
}

fn compare_keys(a: KeyText<'_>, b: KeyText<'_>) -> Ordering
    ensures { result ≡ key_cmp (key_text a.entry) (key_text b.entry) }
{
    match a.name.cmp(b.name) {
        Ordering::Equal => a.descriptor.cmp(b.descriptor),
        order => order,
    }
}

fn compare_entries(listing: Listing, files: &[ClassFile], a: TableEntry, b: TableEntry) -> Ordering
    ensures { result ≡ key_cmp (key_of listing files.now a) (key_of listing files.now b) }
{
    compare_keys(key_at(listing, files, a), key_at(listing, files, b))
}

// Where the entry of a key stands in a table, by bisection, or where one would go.
pub(crate) fn bisect(
    listing: Listing,
    files: &[ClassFile],
    table: &[TableEntry],
    key: KeyText<'_>,
) -> Result<usize, usize>
    requires { Rises key_cmp (key_of listing files.now) table.now }
    ensures found { IfOk result (IsAt (key_of listing files.now) table.now (key_text key.entry)) }
    ensures absent { IfErr result (IsGap (key_of listing files.now) table.now (key_text key.entry)) }
{
    let mut low = 0;
    let mut high = table.len();
    while low < high {
        let middle = low + (high - low) / 2;
        match compare_keys(key_at(listing, files, table[middle]), key) {
            Ordering::Less => low = middle + 1,
            Ordering::Greater => high = middle,
            Ordering::Equal => return Ok(middle),
        }
    }
    Err(low)
}

// How many members of a kind the file at a position has, or how many classes there are.
fn count_at(listing: Listing, files: &[ClassFile], at: u32) -> usize
    requires { IsLoadable files.now }
    ensures count { result ≡ length (keys_at listing files.now at) }
    ensures most { result < 2 ^ 32 }
{
    match listing {
        Listing::OfClasses => files.len(),
        Listing::OfMethods => match files.get(at as usize) {
            Some(file) => file.methods.as_slice().len(),
            None => 0,
        },
        Listing::OfFields => match files.get(at as usize) {
            Some(file) => file.fields.as_slice().len(),
            None => 0,
        },
    }
}

fn push_entries(
    entries: &mut Vec<TableEntry>,
    listing: Listing,
    files: &[ClassFile],
    at: u32,
) -> Result<(), AllocError>
    requires { IsLoadable files.now }
    ensures { IfOk result (λ _. entries.new.items ≡ entries.old.items ++ entries_at listing files.now at) }
{
    for member in 0..count_at(listing, files, at) {
        entries.push(TableEntry {
            file: at,
            member: member as u32,
        })?;
    }
    Ok(())
}

// The members of some files, one after another.
fn entries_of(
    alloc: Global,
    listing: Listing,
    files: &[ClassFile],
    line: &[u32],
) -> Result<Vec<TableEntry>, AllocError>
    requires { IsLoadable files.now }
    ensures { IfOk result (λ entries. entries.items ≡ flat_map (entries_at listing files.now) line.now) }
{
    let mut entries = Vec::new(alloc);
    for at in line {
        push_entries(&mut entries, listing, files, *at)?;
    }
    Ok(entries)
}

// Puts entries in the order of their keys; those of one key stay in their order.
fn order_entries(
    listing: Listing,
    files: &[ClassFile],
    entries: &mut Vec<TableEntry>,
) -> Result<(), AllocError>
    ensures { (wanted : Key) → first_with (key_of listing files.now) entries.new.items wanted
        ≡ first_with (key_of listing files.now) entries.old.items wanted }
{
    entries.sort_by(|a, b| compare_entries(listing, files, *a, *b))
}

// Adds an entry at its place, if there is none of its key.
fn add_entry(
    table: &mut Vec<TableEntry>,
    listing: Listing,
    files: &[ClassFile],
    entry: TableEntry,
) -> Result<(), AllocError>
    requires { Rises key_cmp (key_of listing files.now) table.now.items }
    ensures { IfOk result (λ _. (entries : List Entry)
        → IsTable key_cmp (key_of listing files.now) (first_with (key_of listing files.now) entries) table.old.items
        → IsTable key_cmp (key_of listing files.now) (first_with (key_of listing files.now) (entries ++ entry ∷ [])) table.new.items) }
{
    let key = key_at(listing, files, entry);
    if let Err(at) = bisect(listing, files, table.as_slice(), key) {
        table.insert(at, entry)?;
    }
    Ok(())
}

// The first entry of each key, in order of keys.
fn sort_entries(
    alloc: Global,
    listing: Listing,
    files: &[ClassFile],
    entries: &[TableEntry],
) -> Result<Vec<TableEntry>, AllocError>
    ensures { IfOk result (λ table. IsTable key_cmp (key_of listing files.now) (first_with (key_of listing files.now) entries.now) table.items) }
{
    let mut table = Vec::new(alloc);
    for entry in entries {
        add_entry(&mut table, listing, files, *entry)?;
    }
    Ok(table)
}

// The table of what some files have.
pub(crate) fn table_of(
    alloc: Global,
    listing: Listing,
    files: &[ClassFile],
    line: &[u32],
) -> Result<Table, AllocError>
    requires { IsLoadable files.now }
    ensures { IfOk result (λ table. IsTable key_cmp (key_of listing files.now) (first_entry listing files.now line.now) table) }
{
    let mut entries = entries_of(alloc, listing, files, line)?;
    // In order, each goes to the table's end.
    order_entries(listing, files, &mut entries)?;
    Ok(Table::new(sort_entries(alloc, listing, files, entries.as_slice())?))
}

// The tables of what is found upwards from each class.
pub(crate) fn all_tables(
    alloc: Global,
    listing: Listing,
    files: &[ClassFile],
    lines: &[Positions],
) -> Result<Vec<Table>, AllocError>
    requires loadable { IsLoadable files.now }
    requires lines { lines.now ≡ lines_of (classes_of files.now) (length files.now) }
    ensures { IfOk result (λ tables. AreTables listing files.now (length files.now) tables.items) }
{
    let mut tables = Vec::new(alloc);
    for line in lines {
        tables.push(table_of(alloc, listing, files, line.as_slice())?)?;
    }
    Ok(tables)
}
