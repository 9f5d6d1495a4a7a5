//! Linking units of fat code to a program (C90 5.1.1.2, 6.1.2.2, 6.7): which units of the library it gets, which rules of linking it
//! breaks, how its blocks are numbered, and what memory holds at the start of a run.
#![tactic(auto)]

mod counts;
mod declarations;
mod definitions;
mod libraries;
mod linking;
mod refusal;
mod types;

pub use libraries::added;
pub use linking::link;
pub use refusal::LinkNo;
