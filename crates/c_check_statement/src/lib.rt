//! Statements (C90 6.6).
//!
//! Each form is a method over a function value that reads a statement one node deeper, so that it is proved alone.
#![tactic(auto)]

mod statement;
mod switching;

pub use statement::body;
