//! Preprocessing tokens: phases 1 to 3 of a translation (C90 5.1.1.2 and 6.1), and what later phases keep of them.
#![tactic(auto)]

mod characters;
mod hide_set;
mod piece;
mod reading;
mod spelling;
mod token;
mod unit;

pub use hide_set::HideSet;
pub use piece::kind_of;
pub use reading::pp_tokens;
pub use token::{PpKind, PpToken, PpTokens};
pub use unit::{Names, PpUnit};
