//! Macros and their expansion (C90 6.8.3 and 6.8.8).
#![tactic(auto)]

mod argument_list;
mod definition;
mod directive;
mod hide_sets;
mod item;
mod machine;
mod macros;
mod replacement;
mod store;
mod substitution;

pub use macros::Macros;
