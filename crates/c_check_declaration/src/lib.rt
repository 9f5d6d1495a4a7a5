//! Declarations and their initialisers, and the circle of expressions, type names, specifiers and parameters, closed (C90 6.5).
#![tactic(auto)]

mod declaration;
mod initializer;
mod knot;

pub use declaration::{name_of, read_declaration};
pub use knot::{ROOM, declared, defined, needed, specified, valued};
