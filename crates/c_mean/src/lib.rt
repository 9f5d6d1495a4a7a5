//! The reference interpreter: it runs typed trees by their rows over blocks of bytes, and counts what a run costs. It knows no
//! fat code, no machine and no layouts.
#![tactic(auto)]

mod joining;
mod program;
mod run;

pub use joining::{JoinNo, join};
pub use program::Program;
pub use run::{Meant, run_mean};
