//! Units: declarations, definitions of functions, statements, and the end of a unit (C90 6.5, 6.6, 6.7).
//!
//! A tree is read from left to right, and each part once: the parts of a form first, and then what the form asks of them. Scopes
//! open, close and declare at the points where the grammar's reader does so.
#![tactic(auto)]

mod definition;
mod old_style;
mod prototype;
mod unit;

pub use unit::check;
