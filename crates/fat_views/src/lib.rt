//! Units of fat code as linking sees them, and copies of units.
#![tactic(auto)]

mod copying;
mod viewing;

pub use copying::copied_units;
pub use viewing::view_of;
