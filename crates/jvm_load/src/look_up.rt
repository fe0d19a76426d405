ghost use Rattle.std.specs.Prelude.{◌≡◌, ◌<◌, ℕ, [], ◌∷◌, Option, length, IfSome};
ghost use Rattle.std.specs.Option.{option_map};
ghost use Rattle.jp_store.specs.Classes as classes;
ghost use Rattle.jvm_load.specs.FileClasses.{classes_of};
ghost use Rattle.jvm_load.specs.Methods as methods;
ghost use Rattle.jvm_load.specs.Tables.{Key, key_of, key_cmp, key_text, first_entry, found_above, Rises, IsTable, IsMethodTable, IsFieldTable};
ghost use Rattle.jvm_load.specs.declared.tables.TableEntry.{TableEntry as Entry};
ghost use Rattle.jvm_load.specs.declared.tables.Listing.TheVariants.{OfClasses, OfMethods, OfFields};

use crate::Program;
use crate::names::superclass;
use crate::tables::{KeyText, Listing, TableEntry, bisect};
use class_form::ClassFile;

// The entry of a key in a table.
fn look_up(
    listing: Listing,
    files: &[ClassFile],
    table: &[TableEntry],
    key: KeyText<'_>,
) -> Option<TableEntry>
    requires { Rises key_cmp (key_of listing files.now) table.now }
    ensures { (finds : Key → Option Entry) → IsTable key_cmp (key_of listing files.now) finds table.now → result ≡ finds (key_text key.entry) }
{
    match bisect(listing, files, table, key) {
        Ok(at) => Some(table[at]),
        Err(_) => None,
    }
}

// The positions that an entry holds.
fn positions_of(entry: Option<TableEntry>) -> Option<(u32, u32)>
    ensures { result ≡ option_map (λ (e : Entry). (e.file, e.member)) entry }
{
    match entry {
        Some(entry) => Some((entry.file, entry.member)),
        None => None,
    }
}

// The position of the first file of a class, by the table of classes.
fn class_in(files: &[ClassFile], table: &[TableEntry], name: &[u8]) -> Option<u32>
    requires { IsTable key_cmp (key_of OfClasses files.now) (first_entry OfClasses files.now (0 ∷ [])) table.now }
    ensures place { result ≡ classes.place_of (classes_of files.now) name.now }
    ensures within { IfSome result (λ at. at < length files.now) }
{
    let key = KeyText {
        name: &[],
        descriptor: name,
    };
    match look_up(Listing::OfClasses, files, table, key) {
        Some(entry) => Some(entry.member),
        None => None,
    }
}

// The position of the super class of the class at a position, by the table of classes.
fn super_in(files: &[ClassFile], table: &[TableEntry], at: u32) -> Option<u32>
    requires { IsTable key_cmp (key_of OfClasses files.now) (first_entry OfClasses files.now (0 ∷ [])) table.now }
    ensures place { result ≡ classes.super_of (classes_of files.now) at }
    ensures within { IfSome result (λ up. up < length files.now) }
{
    let file = files.get(at as usize)?;
    class_in(files, table, superclass(file)?)
}

// The method that is found upwards from a class, by the class's table.
fn method_in(
    files: &[ClassFile],
    table: &[TableEntry],
    name: &[u8],
    descriptor: &[u8],
) -> Option<(u32, u32)>
    requires { Rises key_cmp (key_of OfMethods files.now) table.now }
    ensures { (class : ℕ) → IsMethodTable files.now class table.now → result ≡ methods.find_method files.now class name.now descriptor.now }
{
    let key = KeyText { name, descriptor };
    positions_of(look_up(Listing::OfMethods, files, table, key))
}

// The field that is found upwards from a class, by the class's table.
fn field_in(files: &[ClassFile], table: &[TableEntry], name: &[u8]) -> Option<(u32, u32)>
    requires { Rises key_cmp (key_of OfFields files.now) table.now }
    ensures { (class : ℕ) → IsTable key_cmp (key_of OfFields files.now) (found_above OfFields files.now class) table.now
        → result ≡ classes.find_field (classes_of files.now) class name.now }
{
    let key = KeyText {
        name: &[],
        descriptor: name,
    };
    positions_of(look_up(Listing::OfFields, files, table, key))
}

impl Program {
    /// The position of the first file of a class, or `None` exactly where there is none.
    pub fn class(&self, name: &[u8]) -> Option<u32>
        ensures place { result ≡ classes.place_of (classes_of self.now) name.now }
        ensures within { IfSome result (λ at. at < length self.now) }
    {
        class_in(self.files(), self.names(), name)
    }

    /// The position of the super class that a file's class names, or `None` exactly where it names none or that one has
    /// no file.
    pub fn superclass(&self, class: u32) -> Option<u32>
        ensures place { result ≡ classes.super_of (classes_of self.now) class }
        ensures within { IfSome result (λ up. up < length self.now) }
    {
        super_in(self.files(), self.names(), class)
    }

    /// The position of a file's own first method of this name and descriptor, or `None` exactly where there is none.
    pub fn own_method(&self, class: u32, name: &[u8], descriptor: &[u8]) -> Option<u32>
        ensures { result ≡ methods.own_method self.now name.now descriptor.now class }
    {
        if class as usize >= self.files().len() {
            return None;
        }
        match self.find_method(class, name, descriptor) {
            Some((file, method)) => { if file == class { Some(method) } else { None } }
            None => None,
        }
    }

    /// What `find_method` finds from a class: one entry for each name and descriptor, in the order of their bytes.
    pub fn method_table(&self, class: u32) -> &[TableEntry]
        requires { class < length self.now }
        ensures { IsMethodTable self.now class result.now }
    {
        self.methods_above(class)
    }

    /// What `find_field` finds from a class: one entry for each name, in the order of their bytes.
    pub fn field_table(&self, class: u32) -> &[TableEntry]
        requires { class < length self.now }
        ensures { IsFieldTable self.now class result.now }
    {
        self.fields_above(class)
    }

    /// The file and its first method of this name and descriptor that are found upwards from a file's class, or `None`
    /// exactly where none is.
    pub fn find_method(&self, class: u32, name: &[u8], descriptor: &[u8]) -> Option<(u32, u32)>
        requires { class < length self.now }
        ensures { result ≡ methods.find_method self.now class name.now descriptor.now }
    {
        method_in(self.files(), self.method_table(class), name, descriptor)
    }

    /// The file and its first field of this name that are found upwards from a file's class, or `None` exactly where
    /// none is.
    pub fn find_field(&self, class: u32, name: &[u8]) -> Option<(u32, u32)>
        requires { class < length self.now }
        ensures { result ≡ classes.find_field (classes_of self.now) class name.now }
    {
        field_in(self.files(), self.fields_above(class), name)
    }
}
