ghost use Rattle.std.specs.Prelude.{◌≡◌, ℕ, slice_get};
ghost use Rattle.std.specs.Option.{option_map};
ghost use Rattle.jvm_table.specs.Constants.{field_in, method_in, interface_method_in, name_and_type_in, string_in, member_named, literal_at};
ghost use Rattle.jvm_table.specs.Act as table;
ghost use Rattle.jvm_step.specs.Names.{named};

use class_form::{ClassFile, Const, class_name, utf8};

/// A member as a constant names it.
#[derive(Clone, Copy)]
pub struct MemberName<'a> {
    pub class: &'a [u8],
    pub name: &'a [u8],
    pub descriptor: &'a [u8],
}

fn name_and_type(constant: &Const) -> Option<(u16, u16)>
    ensures { result ≡ name_and_type_in constant.now }
{
    match constant {
        Const::NameAndType(name, descriptor) => Some((*name, *descriptor)),
        _ => None,
    }
}

fn field_indices(constant: &Const) -> Option<(u16, u16)>
    ensures { result ≡ field_in constant.now }
{
    match constant {
        Const::Fieldref(class, name) => Some((*class, *name)),
        _ => None,
    }
}

fn method_indices(constant: &Const) -> Option<(u16, u16)>
    ensures { result ≡ method_in constant.now }
{
    match constant {
        Const::Methodref(class, name) => Some((*class, *name)),
        _ => None,
    }
}

fn interface_method_indices(constant: &Const) -> Option<(u16, u16)>
    ensures { result ≡ interface_method_in constant.now }
{
    match constant {
        Const::InterfaceMethodref(class, name) => Some((*class, *name)),
        _ => None,
    }
}

/// The field that a constant names, or `None` where it names none.
pub fn field_name(file: &ClassFile, index: u16) -> Option<MemberName<'_>>
    ensures { option_map named result ≡ member_named field_in file.now index }
{
    let (class, name_at) = field_indices(file.constants.get(index as usize)?)?;
    let class = class_name(file, class)?;
    let (name, descriptor) = name_and_type(file.constants.get(name_at as usize)?)?;
    let name = utf8(file, name)?;
    let descriptor = utf8(file, descriptor)?;
    Some(MemberName {
        class,
        name,
        descriptor,
    })
}

/// The method of a class that a constant names, or `None` where it names none.
pub fn method_name(file: &ClassFile, index: u16) -> Option<MemberName<'_>>
    ensures { option_map named result ≡ member_named method_in file.now index }
{
    let (class, name_at) = method_indices(file.constants.get(index as usize)?)?;
    let class = class_name(file, class)?;
    let (name, descriptor) = name_and_type(file.constants.get(name_at as usize)?)?;
    let name = utf8(file, name)?;
    let descriptor = utf8(file, descriptor)?;
    Some(MemberName {
        class,
        name,
        descriptor,
    })
}

/// The method of an interface that a constant names, or `None` where it names none.
pub fn interface_method_name(file: &ClassFile, index: u16) -> Option<MemberName<'_>>
    ensures { option_map named result ≡ member_named interface_method_in file.now index }
{
    let (class, name_at) = interface_method_indices(file.constants.get(index as usize)?)?;
    let class = class_name(file, class)?;
    let (name, descriptor) = name_and_type(file.constants.get(name_at as usize)?)?;
    let name = utf8(file, name)?;
    let descriptor = utf8(file, descriptor)?;
    Some(MemberName {
        class,
        name,
        descriptor,
    })
}

fn string_index(constant: &Const) -> Option<u16>
    ensures { result ≡ string_in constant.now }
{
    match constant {
        Const::Text(text) => Some(*text),
        _ => None,
    }
}

/// The bytes of a string literal, or `None` where the index is that of none.
pub fn literal(file: &ClassFile, index: u16) -> Option<&[u8]>
    ensures { option_map (λ text. text.now) result ≡ literal_at file.now index }
{
    utf8(file, string_index(file.constants.get(index as usize)?)?)
}

// Whether a name is that of the built-in `Io.print(int)`.
pub(crate) fn names_print(member: &MemberName) -> bool
    ensures { result ≡ table.is_print (named member.now) }
{
    member.class == b"Io".as_slice()
        && (member.name == b"print".as_slice() && member.descriptor == b"(I)V".as_slice())
}

// Whether a name is that of the built-in `Io.text(String)`.
pub(crate) fn names_text(member: &MemberName) -> bool
    ensures { result ≡ table.is_text (named member.now) }
{
    member.class == b"Io".as_slice()
        && (member.name == b"text".as_slice()
            && member.descriptor == b"(Ljava/lang/String;)V".as_slice())
}

// Whether a name is that of the built-in `Io.read()`.
pub(crate) fn names_read(member: &MemberName) -> bool
    ensures { result ≡ table.is_read (named member.now) }
{
    member.class == b"Io".as_slice()
        && (member.name == b"read".as_slice() && member.descriptor == b"()I".as_slice())
}

// Whether a name is that of the constructor of Object.
pub fn names_object_init(member: &MemberName) -> bool
    ensures { result ≡ table.is_object_init (named member.now) }
{
    member.class == b"java/lang/Object".as_slice()
        && (member.name == b"<init>".as_slice() && member.descriptor == b"()V".as_slice())
}
