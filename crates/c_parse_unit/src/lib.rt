//! Initialisers, declarations, statements and units, read from tokens (C90 6.5, 6.6, 6.7).
//!
//! Initialisers and statements may hold others of their kind; each of these two knots is one function, whose productions are
//! methods over a function value that reads what lies one node deeper. Lists are read by loops.
#![tactic(auto)]

mod block;
mod branch;
mod declaration;
mod external;
mod function;
mod initializer;
mod jump;
mod node;
mod repetition;
mod statement;
mod unit;

pub use unit::parse;
