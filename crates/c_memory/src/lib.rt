//! Memory as C sees it here: words with bases, blocks of bytes, and what a read, a write, a copy and a creation do to
//! them. The definitions stand in `specs/`; this crate has only the types and numbers that they and their users share.
#![tactic(auto)]

mod access;
mod kind;
mod limits;

pub use access::{CopyNo, Outside, WriteNo};
pub use kind::BlockKind;
pub use limits::{CLASSES, FIRST_BASE, HEADER_BYTES, MOST_BASE, MOST_STORED};
