ghost use Rattle.limit_laws.specs.Laws.{WithinIsFit, WithinHasFewParams, TypedHasSlots, WithinHasFewLocals, TypedIsWithin};

/// A unit within the limits is small enough to be typed.
pub fn within_is_fit()
    ensures { WithinIsFit }
{}

/// The methods of a unit within the limits, and those of the language, have fewer than 255 parameters.
pub fn within_has_few_params()
    ensures { WithinHasFewParams }
{}

/// Each member of a typed unit has a slot for each value that it starts with.
pub fn typed_has_slots()
    ensures { TypedHasSlots }
{}

/// The members of a typed unit within the limits, which names no class of another, take at most 200 slots.
pub fn within_has_few_locals()
    ensures { WithinHasFewLocals }
{}

/// The lines of the code of such members can be laid out.
pub fn typed_is_within()
    ensures { TypedIsWithin }
{}
