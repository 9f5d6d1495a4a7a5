//! What C's operators do to words, the primitives of the library, and what a run of steps is, whatever steps it has.
#![tactic(auto)]

mod bits;
mod convert;
mod laws;
mod linkage;
mod operators;
mod primitive;
mod words;

pub use bits::{field, replaced};
pub use convert::{narrowed, scaled};
pub use laws::runs_compose;
pub use linkage::{Definition, Linkage};
pub use operators::{Binary, Operator, Unary, UnaryOperator};
pub use primitive::Primitive;
