//! The headers and the library: texts that `#include` and linking add to a program.
#![tactic(auto)]

mod headers;
mod library;

pub use headers::header;
pub use library::{library_count, library_names, library_text};
