//! What predicates are made of, and what they mean: types, hierarchies of classes, guards, and the shapes of a state
//! on which a guard is true or false.
#![tactic(auto)]

mod guard;
mod hier;
mod laws;
mod name;
mod path;
mod shape;
mod supertypes;
mod truth;
mod ty;
mod what;

pub use guard::{Atom, Guard, Row, Term};
pub use hier::{Hier, SeenClass};
pub use laws::{
    beating_is_one_way, beating_is_stable, beating_is_transitive, below_is_decided, below_is_kept,
    checked_pairs_select, extension_is_transitive, implication_is_decided, implication_is_kept,
    implication_is_reflexive, implication_is_stable, implication_is_transitive, kinds_are_decided,
    one_body_is_selected, selection_is_stable, settled_pairs_select, the_greatest_is_selected,
};
pub use name::Name;
pub use path::{Path, PathStep};
pub use shape::{Kind, Shape};
pub use supertypes::{below, class_named, has_no_cycle};
pub use truth::{holds, is_kind_below, kind_at, number_at};
pub use ty::Ty;
pub use what::What;

#[cfg(test)]
mod tests;
