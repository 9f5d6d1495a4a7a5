//! Operations of fat code for the rows of a function, one method a row: what each step of the meaning of C becomes.
#![tactic(auto)]

mod access;
mod arithmetic;
mod bits;
mod calls;
mod control;
mod emitter;
mod initial;
mod stores;
mod switches;

pub use control::Loop;
pub use emitter::{Around, Emitter, Setting};
