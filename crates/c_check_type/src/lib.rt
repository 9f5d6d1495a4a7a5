//! Types in the text: lists of specifiers, declarators, structs, unions, enums, parameters and type names (C90 6.5.1 to 6.5.6).
//!
//! Everything is a method over three function values, which read what lies deeper: an expression, a list of specifiers and a list
//! of parameters. So each is proved alone, and a crate above closes the circle.
#![tactic(auto)]

mod declarator;
mod enumeration;
mod parameter;
mod record;
mod specifiers;
mod types;

pub use c_specifiers::Specified;
pub use declarator::{Defined, Own, adjusted};
pub use parameter::{ParameterOf, Parameters};
pub use types::Types;
