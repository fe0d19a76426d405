ghost use Rattle.std.specs.Prelude.{◌≡◌, ℕ, ◌<◌, ◌≤◌, ◌*◌, ◌^◌, List, [], ◌∷◌, ◌++◌, false, true, length, map, filter, reverse, slice_get, option_and_then, IfOk, IfSome};
ghost use Rattle.std.specs.Option.{option_map};
ghost use Rattle.std.specs.List.{flat_map};
ghost use Rattle.jp_store.specs.Arith as arith;
ghost use Rattle.jp_store.specs.Classes as classes;
ghost use Rattle.jp_store.specs.declared.value.ClassAt.TheVariants.{Listed};
ghost use Rattle.jvm_load.specs.FileClasses.{class_of, classes_of};
ghost use Rattle.jvm_load.specs.Loadable.{IsLoadable, IsLoadableFile};
ghost use Rattle.jvm_load.specs.Fields as spec;
ghost use Rattle.jvm_load.specs.Fields.{member_role, first_of, found_at, IsAmongFirst};
ghost use Rattle.jvm_load.specs.Places.{IsRanked, AreRanked};

use crate::Program;
use crate::names::{is_static_member, text};
use crate::program::Positions;
use class_form::{ClassFile, MemberInfo};
use jp_store::{ClassAt, Kind, Value, Values};
use std::alloc::{AllocError, Global};

/// A field that was found: the position of the file whose class declares it, the field's position among the static
/// fields of that class or among those of each object, and what kind of value it holds.
#[derive(Clone, Copy, Debug, PartialEq, Eq)]
pub struct FieldPlace {
    pub class: u32,
    pub slot: u32,
    pub kind: Kind,
}

// What kind of value a descriptor stands for (JVM specification, second edition, 4.3.2).
fn kind_of(descriptor: &[u8]) -> Option<Kind>
    ensures { result ≡ classes.kind_of descriptor.now }
{
    let (c, _) = descriptor.split_first()?;
    if *c == b'I' || *c == b'Z' {
        Some(Kind::Number)
    } else if *c == b'J' {
        Some(Kind::LongNumber)
    } else if *c == b'L' || *c == b'[' {
        Some(Kind::Reference)
    } else {
        None
    }
}

fn first_value(file: &ClassFile, member: &MemberInfo) -> Value
    ensures { result ≡ first_of file.now member.now }
{
    match kind_of(text(file, member.descriptor)) {
        Some(kind) => default_of(kind),
        None => Value::Null,
    }
}

// What a variable of a kind starts as.
fn default_of(kind: Kind) -> Value
    ensures { result ≡ arith.default_of kind }
{
    match kind {
        Kind::Number => Value::Int(0),
        Kind::LongNumber => Value::Long(0),
        Kind::Reference => Value::Null,
    }
}

// Whether a field is static as wanted.
fn has_role(wants_static: bool, member: &MemberInfo) -> bool
    ensures { result ≡ member_role wants_static member.now }
{
    if wants_static {
        is_static_member(member)
    } else {
        !is_static_member(member)
    }
}

// Adds what a field of a file starts as, if it is static as wanted.
fn push_value(
    values: &mut Vec<Value>,
    file: &ClassFile,
    wants_static: bool,
    member: &MemberInfo,
) -> Result<(), AllocError>
    ensures { IfOk result (λ _. values.new.items
        ≡ values.old.items ++ map (first_of file.now) (filter (member_role wants_static) (member.now ∷ []))) }
{
    if has_role(wants_static, member) {
        values.push(first_value(file, member))?;
    }
    Ok(())
}

// Adds what those fields start as that are static as wanted.
fn push_values(
    values: &mut Vec<Value>,
    file: &ClassFile,
    wants_static: bool,
    members: &[MemberInfo],
) -> Result<(), AllocError>
    ensures { IfOk result (λ _. values.new.items
        ≡ values.old.items ++ map (first_of file.now) (filter (member_role wants_static) members.now)) }
{
    for member in members {
        push_value(values, file, wants_static, member)?;
    }
    Ok(())
}

// Adds what the fields of each object start as that the class at a position declares.
fn push_own_values(values: &mut Vec<Value>, files: &[ClassFile], at: u32) -> Result<(), AllocError>
    ensures { IfOk result (λ _. values.new.items
        ≡ values.old.items ++ map classes.first_value (classes.own_part false (classes_of files.now) at)) }
{
    match files.get(at as usize) {
        Some(file) => push_values(values, file, false, file.fields.as_slice()),
        None => Ok(()),
    }
}

// The values of a new object, by the line of its class.
fn object_values(alloc: Global, files: &[ClassFile], line: &[u32]) -> Result<Vec<Value>, AllocError>
    ensures { IfOk result (λ values. values.items
        ≡ flat_map (λ at. map classes.first_value (classes.own_part false (classes_of files.now) at)) (reverse line.now)) }
{
    let mut values = Vec::new(alloc);
    let mut rest = line;
    while let Some((at, below)) = rest.split_last() {
        push_own_values(&mut values, files, *at)?;
        rest = below;
    }
    Ok(values)
}

fn static_values(alloc: Global, file: &ClassFile) -> Result<Values, AllocError>
    ensures { IfOk result (λ values. values ≡ map classes.first_value (filter (classes.has_role true) (class_of file.now).fields)) }
{
    let mut values = Vec::new(alloc);
    push_values(&mut values, file, true, file.fields.as_slice())?;
    Ok(Values::new(values))
}

fn all_statics(alloc: Global, files: &[ClassFile]) -> Result<Vec<Values>, AllocError>
    ensures { IfOk result (λ statics. statics.items ≡ classes.first_statics (classes_of files.now)) }
{
    let mut statics = Vec::new(alloc);
    for file in files {
        let values = static_values(alloc, file)?;
        statics.push(values)?;
    }
    Ok(statics)
}

// How many of these fields are static as wanted.
fn count_fields(wants_static: bool, members: &[MemberInfo]) -> usize
    ensures count { result ≡ length (filter (member_role wants_static) members.now) }
    ensures most { result ≤ length members.now }
{
    members
        .iter()
        .filter(|member| has_role(wants_static, member))
        .count()
}

// How many fields of each object the class at a position declares.
pub(crate) fn own_count(files: &[ClassFile], at: u32) -> usize
    requires { IsLoadable files.now }
    ensures count { result ≡ length (classes.own_part false (classes_of files.now) at) }
    ensures most { result < 2 ^ 32 }
{
    match files.get(at as usize) {
        Some(file) => count_fields(false, file.fields.as_slice()),
        None => 0,
    }
}

// How many values of an object stand before those of a class, by the line of the object's class.
fn offset_in(files: &[ClassFile], class: u32, line: &[u32]) -> Option<usize>
    requires loadable { IsLoadable files.now }
    requires short { length line.now ≤ length files.now }
    ensures offset { result ≡ classes.offset_in (classes_of files.now) class (reverse line.now) }
    ensures most { IfSome result (λ n. n ≤ length line.now * 4294967295) }
{
    let mut before = 0;
    let mut rest = line;
    while let Some((at, below)) = rest.split_last() {
        if *at == class {
            return Some(before);
        }
        before += own_count(files, *at);
        rest = below;
    }
    None
}

// A field of a file, the i-th, where it is static as wanted and has this descriptor.
fn fitted_in(
    file: &ClassFile,
    ranks: &[u32],
    wants_static: bool,
    descriptor: &[u8],
    at: u32,
    i: u32,
) -> Option<FieldPlace>
    requires { IsRanked file.now.fields ranks.now }
    ensures { option_map found_at result ≡ option_and_then (spec.fitted_in wants_static descriptor.now at i file.now) (slice_get file.now.fields i) }
{
    let member = file.fields.get(i as usize)?;
    if !(has_role(wants_static, member) && text(file, member.descriptor) == descriptor) {
        return None;
    }
    let kind = kind_of(text(file, member.descriptor))?;
    Some(FieldPlace {
        class: at,
        slot: ranks[i as usize],
        kind,
    })
}

fn fitted(
    files: &[ClassFile],
    ranks: &[Positions],
    wants_static: bool,
    descriptor: &[u8],
    at: u32,
    i: u32,
) -> Option<FieldPlace>
    requires { AreRanked files.now (length files.now) ranks.now }
    ensures field { (class name : List ℕ) → option_map found_at result
        ≡ option_and_then (classes.fitted wants_static (record { class = class; name = name; descriptor = descriptor.now }) (classes_of files.now) at i)
        (slice_get (classes.own_fields (classes_of files.now) at) i) }
    ensures within { IfSome result (λ place. place.class < length files.now) }
{
    let file = files.get(at as usize)?;
    let ranks = &ranks[at as usize];
    fitted_in(file, ranks.as_slice(), wants_static, descriptor, at, i)
}

impl Program {
    /// The field of this name that is found upwards from a named class, or `None` exactly where none is, where it isn't
    /// static as wanted, or where it has another descriptor.
    pub fn field_of(
        &self,
        wants_static: bool,
        class: &[u8],
        name: &[u8],
        descriptor: &[u8],
    ) -> Option<FieldPlace>
        ensures field { option_map found_at result
            ≡ classes.field_of wants_static (classes_of self.now) (record { class = class.now; name = name.now; descriptor = descriptor.now }) }
        ensures within { IfSome result (λ place. place.class < length self.now) }
    {
        let at = self.class(class)?;
        let (at, i) = self.find_field(at, name)?;
        fitted(self.files(), self.ranks(), wants_static, descriptor, at, i)
    }

    /// Where an object of a class holds a field, or `None` where it has no such field.
    pub fn slot(&self, class: ClassAt, field: FieldPlace) -> Option<usize>
        requires { field.class < length self.now }
        ensures { result ≡ classes.slot_of (classes_of self.now) class (found_at field) }
    {
        match class {
            ClassAt::Root => None,
            ClassAt::Listed(at) => self.slot_below(at, field),
        }
    }

    // How many values of an object of a class stand before those of another one.
    fn offset_of(&self, at: u32, class: u32) -> Option<usize>
        requires within { at < length self.now }
        requires class_within { class < length self.now }
        ensures offset { result ≡ classes.offset_in (classes_of self.now) class (reverse (classes.line (classes_of self.now) at)) }
        ensures most { IfSome result (λ n. n ≤ length (classes.line (classes_of self.now) at) * 4294967295) }
    {
        // Where no class is above itself, each stands in every line as far from the top as in its own.
        if let Some(offset) = self.offset_at(at, class) {
            return Some(offset);
        }
        offset_in(self.files(), class, self.line(at))
    }

    fn slot_below(&self, at: u32, field: FieldPlace) -> Option<usize>
        requires { field.class < length self.now }
        ensures { result ≡ classes.slot_of (classes_of self.now) (Listed at) (found_at field) }
    {
        if at as usize >= self.files().len() {
            return None;
        }
        let offset = self.offset_of(at, field.class)?;
        Some(offset + field.slot as usize)
    }

    /// The class of a name, or `None` where it has no file and isn't Object.
    pub fn class_at(&self, name: &[u8]) -> Option<ClassAt>
        ensures class { result ≡ classes.class_at (classes_of self.now) name.now }
        ensures within { IfSome result (IsAmongFirst (length self.now)) }
    {
        match self.class(name) {
            Some(at) => Some(ClassAt::Listed(at)),
            None => {
                if name == b"java/lang/Object".as_slice() {
                    Some(ClassAt::Root)
                } else {
                    None
                }
            }
        }
    }

    /// The values of a new object of a class. The error is want of memory.
    pub fn first_values(&self, alloc: Global, class: ClassAt) -> Result<Values, AllocError>
        requires { IsAmongFirst (length self.now) class }
        ensures { IfOk result (λ values. values ≡ classes.first_values (classes_of self.now) class) }
    {
        match class {
            ClassAt::Root => Ok(Values::new(Vec::new(alloc))),
            ClassAt::Listed(at) => Ok(Values::new(object_values(
                alloc,
                self.files(),
                self.line(at),
            )?)),
        }
    }

    /// The static fields of all classes before a program starts. The error is want of memory.
    pub fn first_statics(&self, alloc: Global) -> Result<Vec<Values>, AllocError>
        ensures { IfOk result (λ statics. statics.items ≡ classes.first_statics (classes_of self.now)) }
    {
        all_statics(alloc, self.files())
    }
}
