//! Why the typed reading of a tree refuses it: the rules that it tests, as a type of their own, so that no other can come of it.
#![tactic(auto)]

mod refused;
mod rule;

pub use refused::{CheckRefused, broken};
pub use rule::CheckRule;
