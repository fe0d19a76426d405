//! Laws of values of types, each as the contract of a function that does nothing.

ghost use Rattle.value_types.specs.Laws.{GoingOnIsAnOrder, ValuesStay, ValuesAreOfKinds, ValuesHaveEntries, TheFirstStoreIsTyped, TypedWorkIsSound};

/// That a store goes on from another is an order.
pub fn going_on_is_an_order()
    ensures { GoingOnIsAnOrder }
{}

/// A value stays of its type.
pub fn values_stay()
    ensures { ValuesStay }
{}

/// A value of a type is of the kind that a variable of the type holds, and so is what such a variable starts as.
pub fn values_are_of_kinds()
    ensures { ValuesAreOfKinds }
{}

/// A value of a type has an entry in the shape of a state.
pub fn values_have_entries()
    ensures { ValuesHaveEntries }
{}

/// Before a program starts the store is typed.
pub fn the_first_store_is_typed()
    ensures { TheFirstStoreIsTyped }
{}

/// Each operation on a typed store whose operands are of the types that are wanted comes to a value of the type in a typed
/// store, or traps.
pub fn typed_work_is_sound()
    ensures { TypedWorkIsSound }
{}
