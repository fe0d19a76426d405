ghost use Rattle.typed_texts.specs.Laws.{ReadIsShort, ReadMembersAreShort, TypedHeadsAreShort, TypedIsShort};

/// The members of a unit without guards have short names and literals where the unit has, and names no class of another.
pub fn typed_is_short()
    ensures { TypedIsShort }
{}

/// The heads of its classes have short names.
pub fn typed_heads_are_short()
    ensures { TypedHeadsAreShort }
{}

/// A unit that is read from a text and is within the limits has short names and literals.
pub fn read_is_short()
    ensures { ReadIsShort }
{}

/// And so have its members.
pub fn read_members_are_short()
    ensures { ReadMembersAreShort }
{}
