ghost use Rattle.code_texts.specs.Laws.{ShortNamesFit, ShortTypesFit, ShortMethodsFit, ShortCodeFits};

/// A short name fits a class file, also as the name of its class in code.
pub fn short_names_fit()
    ensures { ShortNamesFit }
{}

/// The descriptor of a type with a short name fits a class file.
pub fn short_types_fit()
    ensures { ShortTypesFit }
{}

/// The descriptor of a method with few parameters of types with short names fits a class file.
pub fn short_methods_fit()
    ensures { ShortMethodsFit }
{}

/// Each name and literal in the code of a member with short names fits a class file.
pub fn short_code_fits()
    ensures { ShortCodeFits }
{}
