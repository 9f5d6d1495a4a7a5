//! The instructions of RV32IM, as values and as words of 32 bits (RISC-V Instruction Set Manual,
//! volume I, chapters "RV32I Base Integer Instruction Set" and "Instruction Set Listings").
#![tactic(auto)]

mod decoding;
mod encoding;
mod fields;
mod inst;
mod opcode;
mod reg;

pub use decoding::{decode, round_trips};
pub use encoding::encode;
pub use inst::Inst;
pub use reg::{Reg, registers};
