use crate::name::Name;
use crate::path::Path;
use sqlite_items::Items;

/// What a reference is: null, an array, an object of a listed class, or an object of an unlisted class.
#[derive(Debug, Drop)]
pub enum Kind {
    Null,
    Array,
    Known(Name),
    Fresh {
        superclass: Name,
        interfaces: Items<Name>,
    },
}

/// What is known of the values at paths: the kinds of references, and the numbers of ints and booleans (0 or 1).
/// A path without an entry is undefined; of several entries of a path in a list the first counts.
#[derive(Debug, Drop)]
pub struct Shape {
    pub refs: Items<(Path, Kind)>,
    pub ints: Items<(Path, i32)>,
}
