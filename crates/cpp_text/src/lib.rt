//! Phase 4 of a translation: directives, included files and conditional groups (C90 5.1.1.2 and 6.8).
#![tactic(auto)]

mod directive;
mod header_name;
mod line_number;
mod opening;
mod quote;
mod reading;
mod refusal;
mod search;
mod section;
mod source;
mod translation;
mod unit;

pub use refusal::PpNo;
pub use unit::preprocess;
