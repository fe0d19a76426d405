use crate::name::Name;

/// A type of the language, or of a call without a result.
#[derive(Debug, Drop)]
pub enum Ty {
    Void,
    Int,
    Boolean,
    Class(Name),
    IntArray,
    BooleanArray,
    ClassArray(Name),
}
