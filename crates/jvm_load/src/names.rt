ghost use Rattle.std.specs.Prelude.{◌≡◌, ◌<◌, ◌^◌, ◌==◌, length, IfSome, position, option_and_then, unwrap_or, slice_get, map};
ghost use Rattle.std.specs.Option.{option_map};
ghost use Rattle.std.specs.Str.{bytes_eq};
ghost use Rattle.jp_store.specs.Classes as classes;
ghost use Rattle.jvm_load.specs.FileClasses as spec;
ghost use Rattle.jvm_load.specs.FileClasses.{text_at, class_text_at, superclass_of, classes_of, field_of_member, is_static};

use class_form::{ClassFile, MemberInfo, class_name, utf8};

// The access flag of static members (JVM specification, second edition, 4.5, 4.6).
const STATIC: u16 = 0x0008;

/// The text at an index of the constants, or none where no text stands there.
pub fn text(file: &ClassFile, index: u16) -> &[u8]
    ensures { result.now ≡ text_at file.now index }
{
    utf8(file, index).unwrap_or(&[])
}

pub(crate) fn class_text(file: &ClassFile, index: u16) -> &[u8]
    ensures { result.now ≡ class_text_at file.now index }
{
    class_name(file, index).unwrap_or(&[])
}

/// The name of a file's class.
pub fn name_of(file: &ClassFile) -> &[u8]
    ensures { result.now ≡ spec.name_of file.now }
{
    class_text(file, file.this_class)
}

/// Whether flags have a flag.
pub fn has_flag(flag: u16, flags: u16) -> bool
    ensures { result ≡ spec.has_flag flag flags }
{
    flags & flag != 0
}

/// Whether a member is static.
pub fn is_static_member(member: &MemberInfo) -> bool
    ensures { result ≡ is_static member.now }
{
    has_flag(STATIC, member.flags)
}

pub(crate) fn superclass(file: &ClassFile) -> Option<&[u8]>
    ensures { option_map (λ name. name.now) result ≡ superclass_of file.now }
{
    if file.super_class == 0 {
        None
    } else {
        Some(class_text(file, file.super_class))
    }
}

fn file_position(files: &[ClassFile], name: &[u8]) -> Option<usize>
    ensures position { result ≡ position (λ file. bytes_eq (spec.name_of file) name.now) files.now }
    ensures within { IfSome result (λ at. at < length files.now) }
{
    files.iter().position(|file| name_of(file) == name)
}

fn class_position(files: &[ClassFile], name: &[u8]) -> Option<usize>
    ensures place { result ≡ classes.place_of (classes_of files.now) name.now }
    ensures within { IfSome result (λ at. at < length files.now) }
{
    file_position(files, name)
}

/// The position of the first file of a class, or `None` where it has no file.
pub fn find_class(files: &[ClassFile], name: &[u8]) -> Option<u32>
    requires { length files.now < 2 ^ 32 }
    ensures place { result ≡ classes.place_of (classes_of files.now) name.now }
    ensures within { IfSome result (λ at. at < length files.now) }
{
    match class_position(files, name) {
        Some(at) => Some(at as u32),
        None => None,
    }
}

/// The position of the super class of the class at a position, if it has a file.
pub(crate) fn super_place(files: &[ClassFile], at: u32) -> Option<u32>
    requires { length files.now < 2 ^ 32 }
    ensures place { result ≡ classes.super_of (classes_of files.now) at }
    ensures within { IfSome result (λ up. up < length files.now) }
{
    let file = files.get(at as usize)?;
    find_class(files, superclass(file)?)
}
