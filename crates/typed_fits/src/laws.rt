ghost use Rattle.typed_fits.specs.Laws.{ReadNamesArePlain, TypedTreesFit, TypedCallsFit};

/// The trees of a unit without a fault fit.
pub fn typed_trees_fit()
    ensures { TypedTreesFit }
{}

/// And so each of its calls is given what it is declared with.
pub fn typed_calls_fit()
    ensures { TypedCallsFit }
{}

/// The names in a unit that is read from a text are ones that a descriptor can carry.
pub fn read_names_are_plain()
    ensures { ReadNamesArePlain }
{}
