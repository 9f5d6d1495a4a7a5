//! What each row does: one function a row, one step each. A row finds the words of its operands, the last one first, and leaves its
//! own.
#![tactic(auto)]

mod access;
mod assignment;
mod call;
mod control;
mod initialiser;
mod primitive;
mod stepping;
mod value;

pub use primitive::taken;
pub use stepping::step;
