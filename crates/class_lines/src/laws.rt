//! Laws of classes in the store, each as the contract of a function that does nothing.

ghost use Rattle.class_lines.specs.Laws.{BelowIsTheSame, FieldsAreInherited, ValuesWiden};

/// One class is below another in the store where predicates see it below.
pub fn below_is_the_same()
    ensures { BelowIsTheSame }
{}

/// Objects of a class hold the fields that a class above it declares.
pub fn fields_are_inherited()
    ensures { FieldsAreInherited }
{}

/// A value of a class is one of each class above it.
pub fn values_widen()
    ensures { ValuesWiden }
{}
