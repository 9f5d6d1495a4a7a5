//! Why a step or a table is refused.

use fsc_base::NoMemory;
use std::alloc::{AllocError, AllocFailed};
use std::io;

/// Why a step can't be done.
#[derive(Clone, Copy, Debug, PartialEq, Eq)]
pub enum NoStep {
    /// Its line says nothing that can be done, and how.
    Malformed(&'static str),
    /// No memory was left for it.
    NoMemory,
}

impl From<NoMemory> for NoStep {
    fn from(_refusal: NoMemory) -> NoStep {
        NoStep::NoMemory
    }
}

impl From<AllocError> for NoStep {
    fn from(_error: AllocError) -> NoStep {
        NoStep::NoMemory
    }
}

impl<T: Drop> From<AllocFailed<T>> for NoStep {
    fn from(_error: AllocFailed<T>) -> NoStep {
        NoStep::NoMemory
    }
}

/// Why a table is not run to its end.
#[derive(Debug, Drop)]
pub enum Stop {
    /// This line is malformed, and how. Lines count from 1.
    Malformed { line: u32, why: &'static str },
    /// No memory was left.
    NoMemory,
    /// The report could not be written, or the table not be read.
    Outside(io::Error),
}

impl Stop {
    /// The same of a line's step.
    pub fn at(line: u32, refusal: NoStep) -> Stop {
        match refusal {
            NoStep::Malformed(why) => Stop::Malformed { line, why },
            NoStep::NoMemory => Stop::NoMemory,
        }
    }
}

impl From<io::Error> for Stop {
    fn from(error: io::Error) -> Stop {
        Stop::Outside(error)
    }
}
