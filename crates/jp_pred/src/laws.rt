//! Laws of the definitions, each as the contract of a function that does nothing.

ghost use Rattle.jp_pred.specs.Laws.{BelowIsDecided, KindsAreDecided, BelowIsKept, ExtensionIsTransitive, ImplicationIsReflexive, ImplicationIsTransitive, ImplicationIsKept, ImplicationIsStable, ImplicationIsDecided, BeatingIsTransitive, BeatingIsStable, SelectionIsStable, BeatingIsOneWay, OneBodyIsSelected, TheGreatestIsSelected, SettledPairsSelect, CheckedPairsSelect};

/// In a hierarchy without cycles, what is computed of two classes is whether one is below the other.
pub fn below_is_decided()
    ensures { BelowIsDecided }
{}

/// In a hierarchy without cycles, what is computed of a kind and a type is whether the kind is of the type.
pub fn kinds_are_decided()
    ensures { KindsAreDecided }
{}

/// A universe that extends another keeps what is above each class of it.
pub fn below_is_kept()
    ensures { BelowIsKept }
{}

/// What extends an extension of a hierarchy extends the hierarchy.
pub fn extension_is_transitive()
    ensures { ExtensionIsTransitive }
{}

/// Each guard implies itself.
pub fn implication_is_reflexive()
    ensures { ImplicationIsReflexive }
{}

/// Where the paths of the guard in the middle have types, implications can be put together.
pub fn implication_is_transitive()
    ensures { ImplicationIsTransitive }
{}

/// What is implied over a hierarchy is implied over each universe that extends it.
pub fn implication_is_kept()
    ensures { ImplicationIsKept }
{}

/// What a universe implies, each hierarchy that it extends and that has every class named implies, and the other way round.
pub fn implication_is_stable()
    ensures { ImplicationIsStable }
{}

/// Over a universe that has every class named, an implication holds, or a shape of that universe refutes it.
pub fn implication_is_decided()
    ensures { ImplicationIsDecided }
{}

/// Beating is transitive among bodies whose guards' paths have types.
pub fn beating_is_transitive()
    ensures { BeatingIsTransitive }
{}

/// Bodies beat each other over a universe that has every class named as they do over each universe that extends it.
pub fn beating_is_stable()
    ensures { BeatingIsStable }
{}

/// And so the same body is selected.
pub fn selection_is_stable()
    ensures { SelectionIsStable }
{}

/// No two bodies beat each other.
pub fn beating_is_one_way()
    ensures { BeatingIsOneWay }
{}

/// At most one body is selected on a shape.
pub fn one_body_is_selected()
    ensures { OneBodyIsSelected }
{}

/// A body that is true on a shape and beats every other body that is true there is the one that is selected.
pub fn the_greatest_is_selected()
    ensures { TheGreatestIsSelected }
{}

/// Where each two true bodies are settled, some body is selected: from pairs to sets.
pub fn settled_pairs_select()
    ensures { SettledPairsSelect }
{}

/// Where some body is true, and each two true bodies of which neither beats the other are both beaten by a true one, some body is selected.
pub fn checked_pairs_select()
    ensures { CheckedPairsSelect }
{}
