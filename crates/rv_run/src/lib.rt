//! The RV32IM machine: it runs the image of a program over a source and a sink (RISC-V Instruction Set Manual,
//! volume I; environment calls as Linux numbers them).
#![tactic(auto)]

mod environment;
mod machine;
mod registers;
mod rows;
mod stop;
mod table;

pub use machine::Machine;
pub use stop::{Step, Stop, TrapKind};
