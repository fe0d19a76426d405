//! The code of members, as lines that are written and laid out.
#![tactic(auto)]

mod body;
mod calls;
mod check;
mod fault;
mod laws;
mod lay;
mod literals;
mod names;
mod places;
mod shapes;
mod signs;
mod start;

pub use body::Body;
pub use fault::BodyFault;
pub use laws::code_has_its_shape;
pub use lay::lay_out;
pub use literals::{
    Literal, above, greater, has_reference, jump_by, jump_by_null, jump_by_zero, jump_where,
    literal_of,
};
pub use names::{element_kind_of, kind_of_type};
pub use places::parts_of;
pub use shapes::{has_operator, is_void};
pub use signs::{Change, Infix, Prefix, change_of, infix_of, prefix_of};
