//! The objects that are alive in the memory of a machine, read as an image of the compiler lays memory out: the headers of
//! blocks, and the descriptors of shapes.
#![tactic(auto)]

mod listing;
mod live;
mod memory;

pub use listing::report;
pub use live::{Live, LiveShape, Lives};
