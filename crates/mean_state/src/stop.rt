//! What a step does.

use fsc_base::{End, NoMemory};
use std::alloc::{AllocError, AllocFailed};

/// What a step that goes on does.
#[derive(Clone, Copy, Debug, PartialEq, Eq)]
pub enum Action {
    /// It costs 1 and so much besides.
    Steps(u64),
    /// It writes a byte, at a cost of 1.
    Puts(u8),
    /// It takes a byte of the input, at a cost of 1.
    Takes,
}

/// Why a run does not go on.
#[derive(Clone, Copy, Debug, PartialEq, Eq)]
pub enum Stop {
    /// It ends, at a cost of 1.
    Ended(End),
    /// A row finds too few words, or a number names nothing. No program that was joined of checked units does so.
    Misfit,
    /// No memory was left.
    NoMemory,
}

impl From<NoMemory> for Stop {
    fn from(_refusal: NoMemory) -> Stop {
        Stop::NoMemory
    }
}

impl From<AllocError> for Stop {
    fn from(_error: AllocError) -> Stop {
        Stop::NoMemory
    }
}

impl<T: Drop> From<AllocFailed<T>> for Stop {
    fn from(_error: AllocFailed<T>) -> Stop {
        Stop::NoMemory
    }
}
