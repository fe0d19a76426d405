//! What the meaning of the source and the machine share: values, arithmetic of 32 and 64 bits, and the store of objects,
//! arrays and static fields with the operations on it.
#![tactic(auto)]

mod arith;
mod heap;
mod operator;
mod outcome;
mod value;

pub use arith::{binary, compares, long_orders, long_products, long_sums, negated, sames, widened};
pub use heap::{Elements, Heap, Thing, Values};
pub use operator::{BinaryOp, Test};
pub use outcome::Outcome;
pub use value::{ClassAt, Element, ElementKind, Kind, TrapKind, Value};
