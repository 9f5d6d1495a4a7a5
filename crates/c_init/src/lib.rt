//! Initialisers laid out: which scalar, struct or union of an object each item fills, with which value (C90 6.5.7).
#![tactic(auto)]

mod filling;
mod frame;
mod item;
mod sort;
mod value;

pub use filling::{LaidOut, layout_init};
