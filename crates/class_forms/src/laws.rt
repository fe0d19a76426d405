//! Laws of the constants that a class asks for, each as the contract of a function that does nothing.

ghost use Rattle.class_forms.specs.Laws.{
  ClassConstantsAreSound,
  ClassConstantsFit,
  ShortClassIsFit,
  SmallClassAsksFew,
};

/// Unused stands where it has to among a class's constants, and each index in them names one of the right kind.
pub fn class_constants_are_sound()
    ensures { ClassConstantsAreSound }
{}

/// The texts of a class's constants fit where the class's names and literals are short.
pub fn class_constants_fit()
    ensures { ClassConstantsFit }
{}

/// A class with little code, and with few members, fields and interfaces, asks for few constants.
pub fn small_class_asks_few()
    ensures { SmallClassAsksFew }
{}

/// A class whose names and literals are short fits a file, where its constants, interfaces, fields and members aren't too many.
pub fn short_class_is_fit()
    ensures { ShortClassIsFit }
{}
