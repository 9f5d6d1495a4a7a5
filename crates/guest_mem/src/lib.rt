//! The memory of the guest machine: the segments of an image as regions of bytes with rights (RISC-V Instruction Set
//! Manual, volume I: byte addresses of 32 bits, little-endian).
#![tactic(auto)]

mod directory;
mod fault;
mod guest;
mod page;
mod region;
mod right;
mod streams;

pub use fault::{Fault, StoreNo};
pub use guest::Guest;
pub use right::Right;
pub use streams::Filled;
