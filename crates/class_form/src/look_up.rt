ghost use Rattle.std.specs.Prelude.{◌≡◌};
ghost use Rattle.std.specs.Option.{option_map};
ghost use Rattle.class_form.specs.Constants.{utf8_at, class_name_at, is_text, attribute_named};

use crate::{Attribute, ClassFile, Const};

/// The text at an index of the constants, or `None` where no text stands there.
pub fn utf8(file: &ClassFile, index: u16) -> Option<&[u8]>
    ensures { option_map (λ text. text.now) result ≡ utf8_at file.now index }
{
    match file.constants.get(index as usize)? {
        Const::Utf8(text) => Some(text.bytes()),
        _ => None,
    }
}

/// The name of the class at an index of the constants, or `None` where no class with a name stands there.
pub fn class_name(file: &ClassFile, index: u16) -> Option<&[u8]>
    ensures { option_map (λ name. name.now) result ≡ class_name_at file.now index }
{
    match file.constants.get(index as usize)? {
        Const::Class(name) => utf8(file, *name),
        _ => None,
    }
}

/// Whether this text stands at an index of the constants.
pub fn has_text(file: &ClassFile, index: u16, text: &[u8]) -> bool
    ensures { result ≡ is_text (utf8_at file.now index) text.now }
{
    match utf8(file, index) {
        Some(found) => found == text,
        None => false,
    }
}

/// The first attribute of the class under a name, or `None` where there is none.
pub fn find_attribute<'a>(file: &'a ClassFile, name: &[u8]) -> Option<&'a Attribute>
    ensures { option_map (λ attribute. attribute.now) result ≡ attribute_named file.now name.now }
{
    file.attributes
        .as_slice()
        .iter()
        .find(|attribute| has_text(file, attribute.name, name))
}
