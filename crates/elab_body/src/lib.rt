//! The operations of a function: those of its expressions and statements, of its entry and of its end.
#![tactic(auto)]

mod expressions;
mod functions;
mod lengths;
mod pieces;
mod placing;
mod spots;
mod statement_lengths;
mod statements;

pub use functions::function;
