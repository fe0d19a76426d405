ghost use Rattle.std.specs.Prelude.{◌≡◌, ◌<◌, ◌≤◌, ◌^◌, ℕ, List, length, true, false, IfOk, IfSome, MatchOption, Some, slice_get, option_and_then};
ghost use Rattle.std.specs.Option.{option_map};
ghost use Rattle.class_form.specs.declared.class_file.ClassFile.{ClassFile as File};
ghost use Rattle.jp_store.specs.declared.heap.Thing.{Thing as Made};
ghost use Rattle.jp_store.specs.declared.value.Value.{Value as Cell};
ghost use Rattle.jvm_table.specs.Constants.{method_in, interface_method_in, member_named};
ghost use Rattle.jvm_load.specs.Fields.{found_at, IsAmongFirst};
ghost use Rattle.jvm_link.specs.Links.{class_named, field_named, IsConstant, IsWithin, AreConstants, AreLinked, signed, static_of, special_of};

use crate::constant::{Constant, constant_at};
use class_form::ClassFile;
use jp_store::ClassAt;
use jvm_load::{FieldPlace, Program, Signature};
use std::alloc::{AllocError, Global};
use std::marker::Model;

/// What the constants of a file name, which contracts see as their list.
#[derive(Drop)]
struct Constants {
    items: Vec<Constant>,
}

impl Model for Constants {
    ghost use Rattle.std.specs.Prelude.{List};
    ghost use Rattle.jvm_link.specs.declared.constant.Constant.{Constant as Named};

    ghost Value = { List Named };

    ghost view = { λ c. c.items.items };
}

impl Constants {
    fn new(items: Vec<Constant>) -> Constants
        ensures { result ≡ items.items }
    {
        Constants { items }
    }

    fn get(&self, index: u16) -> Option<&Constant>
        ensures { option_map (λ constant. constant.now) result ≡ slice_get self.now index }
    {
        self.items.get(index as usize)
    }
}

/// Class files with what their constants name, which contracts see as the list of the files.
#[derive(Drop)]
pub struct Linked<'a> {
    program: &'a Program,
    constants: Vec<Constants>,
}

impl<'a> Model for Linked<'a> {
    ghost use Rattle.std.specs.Prelude.{List, length};
    ghost use Rattle.class_form.specs.declared.class_file.ClassFile.{ClassFile as Linkable};
    ghost use Rattle.jvm_link.specs.Links.{AreLinked};

    ghost Value = { List Linkable };

    ghost view = { λ l. l.program.now };

    ghost invariant = { λ l. AreLinked l.program.now (length l.program.now) l.constants.items };
}

impl<'a> Linked<'a> {
    /// The files.
    pub fn program(&self) -> &'a Program
        ensures { result.now ≡ self.now }
    {
        self.program
    }

    // What the constant at an index of the file at a position names.
    fn constant(&self, file: u32, index: u16) -> Option<&Constant>
        ensures constant { (f : File) → slice_get self.now file ≡ Some f → MatchOption result
            (length f.constants ≤ index)
            (λ constant. IsConstant self.now f index constant.now) }
        ensures within { IfSome result (λ constant. IsWithin (length self.now) constant.now) }
    {
        self.constants.get(file as usize)?.get(index)
    }

    /// The class that a constant of a file names, if there is one.
    pub fn class(&self, file: u32, index: u16) -> Option<ClassAt>
        ensures class { (f : File) → slice_get self.now file ≡ Some f
            → result ≡ class_named self.now f index }
        ensures within { IfSome result (IsAmongFirst (length self.now)) }
    {
        self.constant(file, index)?.class
    }

    /// The field of objects that a constant of a file names, if there is one.
    pub fn field(&self, file: u32, index: u16) -> Option<FieldPlace>
        ensures field { (f : File) → slice_get self.now file ≡ Some f
            → option_map found_at result ≡ field_named false self.now f index }
        ensures within { IfSome result (λ place. place.class < length self.now) }
    {
        self.constant(file, index)?.field
    }

    /// The static field that a constant of a file names, if there is one.
    pub fn static_field(&self, file: u32, index: u16) -> Option<FieldPlace>
        ensures field { (f : File) → slice_get self.now file ≡ Some f
            → option_map found_at result ≡ field_named true self.now f index }
        ensures within { IfSome result (λ place. place.class < length self.now) }
    {
        self.constant(file, index)?.static_field
    }

    /// What the descriptor of the method says that a constant of a file names, if it is one.
    pub fn signature(&self, file: u32, index: u16) -> Option<&Signature>
        ensures { (f : File) → slice_get self.now file ≡ Some f
            → option_map (λ s. s.now) result ≡ option_and_then signed (member_named method_in f index) }
    {
        self.constant(file, index)?.signature.as_ref()
    }

    /// The same of a method of an interface.
    pub fn interface_signature(&self, file: u32, index: u16) -> Option<&Signature>
        ensures { (f : File) → slice_get self.now file ≡ Some f
            → option_map (λ s. s.now) result ≡ option_and_then signed (member_named interface_method_in f index) }
    {
        self.constant(file, index)?.interface_signature.as_ref()
    }

    /// The method that a static call with a constant of a file finds, if there is one.
    pub fn static_method(&self, file: u32, index: u16) -> Option<(u32, u32)>
        ensures { (f : File) → slice_get self.now file ≡ Some f → (heap : List Made) (args : List Cell)
            → result ≡ option_and_then (static_of self.now heap args) (member_named method_in f index) }
    {
        self.constant(file, index)?.static_method
    }

    /// The method that a special call with a constant of a file finds, if there is one.
    pub fn special_method(&self, file: u32, index: u16) -> Option<(u32, u32)>
        ensures { (f : File) → slice_get self.now file ≡ Some f → (heap : List Made) (args : List Cell)
            → result ≡ option_and_then (special_of self.now f heap args) (member_named method_in f index) }
    {
        self.constant(file, index)?.special_method
    }
}

// How many constants two bytes can name.
fn count_of(file: &ClassFile) -> usize
    ensures few { result ≤ 2 ^ 16 }
    ensures all { result < 2 ^ 16 → length file.now.constants ≤ result }
{
    let count = file.constants.len();
    if count < 65536 { count } else { 65536 }
}

fn constants_of(
    alloc: Global,
    program: &Program,
    file: &ClassFile,
) -> Result<Vec<Constant>, AllocError>
    ensures { IfOk result (λ constants. AreConstants program.now file.now constants.items) }
{
    let mut constants = Vec::new(alloc);
    for index in 0..count_of(file) {
        constants.push(constant_at(alloc, program, file, index as u16)?)?;
    }
    Ok(constants)
}

fn all_constants(alloc: Global, program: &Program) -> Result<Vec<Constants>, AllocError>
    ensures { IfOk result (λ lists. AreLinked program.now (length program.now) lists.items) }
{
    let files = program.files();
    let mut lists = Vec::new(alloc);
    for file in files {
        lists.push(Constants::new(constants_of(alloc, program, file)?))?;
    }
    Ok(lists)
}

/// The files of a program with what their constants name. The error is want of memory.
pub fn link(alloc: Global, program: &Program) -> Result<Linked<'_>, AllocError>
    ensures { IfOk result (λ linked. linked ≡ program.now) }
{
    let constants = all_constants(alloc, program)?;
    Ok(Linked { program, constants })
}
