//! The rules of C90 for expressions: which typed tree an expression has in a setting, and where it breaks a rule. The definitions stand
//! in `specs/`; `laws` shows them at work.
#![tactic(auto)]

mod laws;

pub use laws::{expressions_are_broken, expressions_are_typed};
