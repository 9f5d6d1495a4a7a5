//! What linking sees of typed units.
#![tactic(auto)]

mod pieces;
mod sealing;
mod unit;

pub use pieces::view_pieces;
pub use sealing::is_const;
pub use unit::view_of;
