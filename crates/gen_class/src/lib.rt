//! The class file of a class of resolved trees.
#![tactic(auto)]

mod class;
mod heads;
mod hier;
mod methods;
mod names;

pub use class::class_file;
pub use hier::hier_of;
