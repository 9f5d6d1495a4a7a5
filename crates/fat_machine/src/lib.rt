//! The machine of fat code over cells, with the shapes of blocks and a count of away accesses.
#![tactic(auto)]

mod calls;
mod frame;
mod machine;
mod memory;
mod perform;
mod primitives;
mod start;
mod stop;

pub use machine::FatMachine;
pub use stop::{FatStep, MachineNo};
