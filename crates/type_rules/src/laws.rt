ghost use Rattle.type_rules.specs.Laws.{FirstIsFirst, NoneIsNone, SoundIsSeen, SoundIsGuarded, SoundIsTyped, UnderIsBelow, AboveItself};
ghost use Rattle.type_rules.specs.WorkedDeclarations.{DeclarationsHold};
ghost use Rattle.type_rules.specs.WorkedNames.{NamesHold};
ghost use Rattle.type_rules.specs.WorkedGuards.{GuardsHold};
ghost use Rattle.type_rules.specs.WorkedExpressions.{ExpressionsHold};
ghost use Rattle.type_rules.specs.WorkedCalls.{CallsHold};
ghost use Rattle.type_rules.specs.WorkedStatements.{StatementsHold};
ghost use Rattle.type_rules.specs.WorkedTree.{TreeHolds};
ghost use Rattle.type_rules.specs.WorkedUnits.{UnitsHold};

/// The first fault of nodes, those of a unit say, is one of their faults, and none of them is before it.
pub fn first_is_first()
    ensures { FirstIsFirst }
{}

/// Nodes without a first fault have no fault at all.
pub fn none_is_none()
    ensures { NoneIsNone }
{}

/// An expression whose value is wanted has one, with its resolved tree, where it has no fault.
pub fn sound_is_seen()
    ensures { SoundIsSeen }
{}

/// A guard without a fault has a resolved tree.
pub fn sound_is_guarded()
    ensures { SoundIsGuarded }
{}

/// A unit without a fault has a resolved tree.
pub fn sound_is_typed()
    ensures { SoundIsTyped }
{}

/// What is above a class is the closure of the supertypes that are named, also where there is a cycle.
pub fn under_is_below()
    ensures { UnderIsBelow }
{}

/// Rule 5 is broken exactly where a declaration is above itself.
pub fn above_itself()
    ensures { AboveItself }
{}

/// The rules of declarations and members on worked examples: each is broken by one, and kept by one like it.
pub fn declarations_hold()
    ensures { DeclarationsHold }
{}

/// The rules of names on worked examples: each is broken by one, and kept by one like it.
pub fn names_hold()
    ensures { NamesHold }
{}

/// The rules of guards on worked examples: each is broken by one, and kept by one like it.
pub fn guards_hold()
    ensures { GuardsHold }
{}

/// The rules of expressions on worked examples: each is broken by one, and kept by one like it.
pub fn expressions_hold()
    ensures { ExpressionsHold }
{}

/// The rules of calls on worked examples: each is broken by one, and kept by one like it.
pub fn calls_hold()
    ensures { CallsHold }
{}

/// The rules of statements on worked examples: each is broken by one, and kept by one like it.
pub fn statements_hold()
    ensures { StatementsHold }
{}

/// A program of three units has no fault, and the first fault goes by places alone.
pub fn units_hold()
    ensures { UnitsHold }
{}

/// The resolved tree of a worked example: slots, declaring classes, an alias, and a constructor that isn't written.
pub fn tree_holds()
    ensures { TreeHolds }
{}
