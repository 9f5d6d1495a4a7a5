//! Layouts of cells, and what C's accesses do by them in a store of cells.
#![tactic(auto)]

mod access;
mod copying;
mod form;
mod laws;
mod layout;
mod locate;
mod object;
mod taken;

pub use access::{read, write};
pub use copying::copy;
pub use laws::{numbers_stand_for_layouts, places_of_one_kind};
pub use layout::{Layout, Mixed, Narrow, Pair, Plane};
