//! Why there is no memory at the start.

use fsc_base::NoMemory;
use std::alloc::{AllocError, AllocFailed};

/// Why the blocks at the start are refused.
#[derive(Clone, Copy, Debug, PartialEq, Eq)]
pub enum StartNo {
    /// A number of a unit names nothing, or there are more than 2^32 - 1 blocks.
    Misfit,
    /// The blocks need more than 2^29 bytes of storage, or a virtual base above 2^32 - 2^16.
    Full,
    /// No memory was left.
    NoMemory,
}

impl From<NoMemory> for StartNo {
    fn from(_refusal: NoMemory) -> StartNo {
        StartNo::NoMemory
    }
}

impl From<AllocError> for StartNo {
    fn from(_error: AllocError) -> StartNo {
        StartNo::NoMemory
    }
}

impl<T: Drop> From<AllocFailed<T>> for StartNo {
    fn from(_error: AllocFailed<T>) -> StartNo {
        StartNo::NoMemory
    }
}
