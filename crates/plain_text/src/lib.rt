//! Reads the one form of C text that is built: calls of `putchar` with numbers, and a `return`.
#![tactic(auto)]

mod number;
mod program;
mod reading;
mod token;

pub use number::decimal_number;
pub use program::{Program, ReadNo};
pub use reading::{one_program, read_program};
