ghost use Rattle.plain_laws.specs.Laws.{PlainHasMain, TypedFieldsAreOwn, PlainMembersAreApart, PlainKeepsTheMeaning};

/// A unit with a `main` that can be run has the static method that a program begins with.
pub fn plain_has_main()
    ensures { PlainHasMain }
{}

/// The fields of a unit that names no class of another are of its own classes.
pub fn typed_fields_are_own()
    ensures { TypedFieldsAreOwn }
{}

/// No two members with statements of a class of a plain unit have one name and descriptor.
pub fn plain_members_are_apart()
    ensures { PlainMembersAreApart }
{}

/// Class files that are compiled class by class from a plain unit that was read do what it means.
pub fn plain_keeps_the_meaning()
    ensures { PlainKeepsTheMeaning }
{}
