//! What is looked up in the heads of classes: types, names of classes, what is below what, and members upwards.
#![tactic(auto)]

mod assigning;
mod error;
mod fields;
mod first;
mod heads;
mod hierarchy;
mod methods;
mod names;
mod types;
mod under;

pub use assigning::{
    a_boolean, a_reference, an_array, an_int, an_interface, are_bits, assignable, comparable,
    excludes, excludes_value, fits, is_text, is_value, joins, may_be_cast, misfit, some_misfit,
    typed, widens_to,
};
pub use error::TypeErr;
pub use fields::{field_named, field_of, field_that};
pub use first::First;
pub use heads::{head_of, is_class, is_concrete, names_class, names_interface};
pub use hierarchy::supertypes;
pub use methods::{constructor_of, is_static, method_of};
pub use names::{
    called, class_of_value, is_class_name, is_text_call, own_field, own_method, super_method,
    variable_from, variable_of,
};
pub use types::{
    copy_ty, copy_types, is_array, is_boolean, is_int, is_io, is_named, is_reference, is_refused,
    is_reserved, is_unknown, is_void, same_type,
};
pub use under::{are_related, ascends, is_under};
