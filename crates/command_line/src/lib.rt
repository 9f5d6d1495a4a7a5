//! The command lines of the program, read by clap.
#![tactic(auto)]

mod arguments;
mod asking;
mod forms;
mod matching;
mod names;
mod refusal;
mod request;

pub use asking::{one_request, request_of};
pub use forms::{go_forms, run_forms};
pub use names::Names;
pub use refusal::WordsNo;
pub use request::Request;
