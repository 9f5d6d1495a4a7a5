//! Why a file of cases is refused.

use std::alloc::{AllocError, AllocFailed};
use std::error::Error;
use std::fmt;

/// Why a file of cases, or a field of one, was refused.
#[derive(Clone, Copy, Debug, PartialEq, Eq)]
pub enum CaseNo {
    /// The file's line of that number, from 1, is malformed, for this reason.
    Malformed { line: u32, why: &'static str },
    /// No memory was left for what it holds.
    NoMemory,
}

impl fmt::Display for CaseNo {
    fn fmt<W: fmt::Write>(&self, f: &mut fmt::Formatter<W>) -> fmt::Result {
        match self {
            CaseNo::Malformed { line, why } => write!(f, "{line}: {why}"),
            CaseNo::NoMemory => write!(f, "no memory"),
        }
    }
}

impl Error for CaseNo {}

impl From<AllocError> for CaseNo {
    fn from(_error: AllocError) -> CaseNo {
        CaseNo::NoMemory
    }
}

impl<T: Drop> From<AllocFailed<T>> for CaseNo {
    fn from(_error: AllocFailed<T>) -> CaseNo {
        CaseNo::NoMemory
    }
}
