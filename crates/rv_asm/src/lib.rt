//! An assembler: instructions and jumps to labels, whose places are known only at the end (RISC-V Assembly Programmer's
//! Manual, "Labels", "Absolute addressing").
#![tactic(auto)]

mod assembler;
mod finish;
mod item;
mod label;
mod listing;
mod no;
mod parts;
mod place;

pub use assembler::Assembler;
pub use item::Item;
pub use label::Label;
pub use no::AsmNo;
pub use parts::{high_part, leaps_arrive, low_part};
