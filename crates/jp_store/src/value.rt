/// What a variable or a place of an operand stack holds.
#[derive(Clone, Copy, Debug, PartialEq, Eq)]
pub enum Value {
    /// An `int`; a `boolean` is 0 or 1.
    Int(i32),
    Long(i64),
    Null,
    /// An object or array, by its number in order of making.
    Ref(usize),
    /// A literal text, by the index of its constant in the class file whose code holds it. It never leaves that code.
    Text(u16),
}

/// What kind of value a variable holds.
#[derive(Clone, Copy, Debug, PartialEq, Eq)]
pub enum Kind {
    /// An `int` or a `boolean`.
    Number,
    LongNumber,
    Reference,
}

/// What stops a program that does what Java forbids at run time.
#[derive(Clone, Copy, Debug, PartialEq, Eq)]
pub enum TrapKind {
    NullReference,
    DivideByZero,
    OutOfBounds,
    NegativeSize,
    BadCast,
}

/// A class: `java/lang/Object`, or one that is listed, by its position.
#[derive(Clone, Copy, Debug, PartialEq, Eq)]
pub enum ClassAt {
    Root,
    Listed(u32),
}

/// What an array's elements are.
#[derive(Clone, Copy, Debug, PartialEq, Eq)]
pub enum Element {
    /// `int`.
    Numbers,
    /// `boolean`.
    Truths,
    /// Objects of a class, or null.
    References(ClassAt),
}

/// What kind of elements an instruction reads or stores.
#[derive(Clone, Copy, Debug, PartialEq, Eq)]
pub enum ElementKind {
    NumberElement,
    TruthElement,
    ReferenceElement,
}
