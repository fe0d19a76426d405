//! Laws of constants that are held, each as the contract of a function that does nothing.

ghost use Rattle.pool_laws.specs.Growth.{LinesExtend, HoldingExtends, LinesAddFew, HoldingAddsFew, LinesAsk};
ghost use Rattle.pool_laws.specs.Kinds.{HeldIsNamed};
ghost use Rattle.pool_laws.specs.Sound.{LinesKeepSoundness, HoldingKeepsSoundness};
ghost use Rattle.pool_laws.specs.Texts.{LinesKeepTexts, HoldingKeepsTexts};

/// What lines name stands behind the constants that were there.
pub fn lines_extend()
    ensures { LinesExtend }
{}

/// So does whatever is held.
pub fn holding_extends()
    ensures { HoldingExtends }
{}

/// Each line adds six constants at most.
pub fn lines_add_few()
    ensures { LinesAddFew }
{}

/// How many constants are added at most, by what is held.
pub fn holding_adds_few()
    ensures { HoldingAddsFew }
{}

/// Lines in two parts ask for what they ask for together.
pub fn lines_ask()
    ensures { LinesAsk }
{}

/// The index that is answered names a constant of its kind, whatever stands behind the constants.
pub fn held_is_named()
    ensures { HeldIsNamed }
{}

/// Constants stay sound whatever lines name.
pub fn lines_keep_soundness()
    ensures { LinesKeepSoundness }
{}

/// They stay sound whatever is held.
pub fn holding_keeps_soundness()
    ensures { HoldingKeepsSoundness }
{}

/// Where the texts of constants fit, and those of lines, they fit with what the lines name.
pub fn lines_keep_texts()
    ensures { LinesKeepTexts }
{}

/// Where the texts of constants fit, and those of what is held, they fit with it.
pub fn holding_keeps_texts()
    ensures { HoldingKeepsTexts }
{}
