//! Shapes of blocks: which of a block's words keep a base beside their value, and where values and bases stand in its
//! cell.
#![tactic(auto)]

mod descriptor;
mod kinds;
mod laws;
mod period;
mod shape;
mod shapes;

pub use descriptor::{decode_desc, encode_desc};
pub use kinds::Kinds;
pub use laws::{
    cells_are_placed, cells_are_set, descriptors_read_back, places_are_apart, shapes_are_found,
    shapes_are_least,
};
pub use period::least_period;
pub use shape::{Shape, place};
pub use shapes::Shapes;
