//! Tables of cases: text files that a person writes by hand, each case a list of steps with their answers. A program
//! says what the steps do; this crate reads the files, compares and reports. `docs/PARTS.md` explains the files.
#![tactic(auto)]

mod bytes;
mod line;
mod number;
mod program;
mod refusal;
mod run;
mod words;

pub use bytes::{bytes_of_hex, bytes_of_text, hex_of, text_of};
pub use number::{immediate_of, index_of, number_of};
pub use program::run_tables;
pub use refusal::NoStep;
pub use run::Bench;
