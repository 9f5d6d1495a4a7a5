//! Shapes of blocks beside the heap: what decides the shape of a block in a run, and which accesses fit it. The definitions
//! stand in `specs/`; the meaning of C and the fat machine share them.
#![tactic(auto)]

mod laws;

pub use laws::{block_is_watched, runs_are_watched, shapes_stay};
