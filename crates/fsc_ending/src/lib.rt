//! How a call of the tool ends, its exit status, and the lines on standard error.
#![tactic(auto)]

mod ending;
mod lives;
mod note;

pub use ending::{Ending, Form, StopKind, Storage, ending_of, status};
pub use note::report;
