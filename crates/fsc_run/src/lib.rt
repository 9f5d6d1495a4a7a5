//! Runs of images: that of a machine, and the command `run`, which reads an image from a file.
#![tactic(auto)]

mod reading;
mod run;
mod running;

pub use reading::{missing, read_file};
pub use run::run_file;
pub use running::{Done, run_machine};
