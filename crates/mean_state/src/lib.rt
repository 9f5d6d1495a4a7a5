//! A moment of a run of typed trees: the place that is reached, the words that are still wanted, the activations, and memory. What
//! each call changes is small: beside blocks, clears, copies and the slots of a call it takes a bounded number of steps.
#![tactic(auto)]

mod activation;
mod memory;
mod moment;
mod stop;

pub use moment::{Moment, Pending};
pub use stop::{Action, Stop};
