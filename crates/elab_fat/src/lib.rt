//! Elaboration: typed units become units of fat code.
#![tactic(auto)]

mod data;
mod names;
mod strings;
mod units;

pub use elab_setting::ElaborateNo;
pub use units::elaborate;
