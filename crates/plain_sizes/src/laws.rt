ghost use Rattle.plain_sizes.specs.Laws.{PlainHasFewItems, PlainHasRoom};

/// The code of each member of a typed unit without guards that is within the limits has few items.
pub fn plain_has_few_items()
    ensures { PlainHasFewItems }
{}

/// The lines of such a member are never assembled to `TooLong` or `FarJump`, whatever the constants.
pub fn plain_has_room()
    ensures { PlainHasRoom }
{}
