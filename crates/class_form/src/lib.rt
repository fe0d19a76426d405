//! Class files as values: constants, members, code and attributes, with the look-ups of a file's own constants
//! (JVM specification, second edition, chapter 4).
#![tactic(auto)]

mod bytes;
mod checks;
mod class_file;
mod constant;
mod look_up;
mod member;

pub use bytes::Bytes;
pub use checks::{
    code_size, is_code_text, is_super_class, names_class, names_code, names_name_and_type,
    names_utf8, well_formed,
};
pub use class_file::ClassFile;
pub use constant::Const;
pub use look_up::{class_name, find_attribute, has_text, utf8};
pub use member::{Attribute, Code, MemberInfo};
