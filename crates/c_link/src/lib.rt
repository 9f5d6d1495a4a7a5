//! What linking is: the view that it has of a unit, which units of the library a program gets, how its blocks are numbered, what
//! memory holds at the start of its run, and which rules it can break. The definitions stand in `specs/`.
#![tactic(auto)]

mod fault;
mod laws;

pub use fault::LinkFault;
pub use laws::{faults_are_told, types_are_compared, units_are_linked};
