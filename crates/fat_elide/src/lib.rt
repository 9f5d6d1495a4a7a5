//! Conversions that are made again at once, or of a slot that was converted before, are taken out of fat code.
#![tactic(auto)]

mod known;
mod removing;

pub use removing::{ElideNo, elide};
