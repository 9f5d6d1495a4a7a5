//! The top call of `fsc`: what the words of a command line ask for, done over files and streams that are handed in, with
//! its theorem.
#![tactic(auto)]

mod top_call;

pub use fsc_ending::{Ending, Form, StopKind, Storage, report, status};
pub use top_call::tool;
