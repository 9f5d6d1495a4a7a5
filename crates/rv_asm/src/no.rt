//! Why a call of the assembler is refused.

use fsc_base::NoMemory;
use std::alloc::{AllocError, AllocFailed};

/// Why a call of the assembler is refused.
#[derive(Clone, Copy, Debug, PartialEq, Eq)]
pub enum AsmNo {
    /// What is asked for has no place in the code: an instruction without a word, a label of another assembler, a label that is
    /// bound a second time or never, or an end of the code behind the addresses of 32 bits.
    Misfit,
    /// No memory was left.
    NoMemory,
}

impl From<NoMemory> for AsmNo {
    fn from(_error: NoMemory) -> AsmNo {
        AsmNo::NoMemory
    }
}

impl From<AllocError> for AsmNo {
    fn from(_error: AllocError) -> AsmNo {
        AsmNo::NoMemory
    }
}

impl<T: Drop> From<AllocFailed<T>> for AsmNo {
    fn from(_error: AllocFailed<T>) -> AsmNo {
        AsmNo::NoMemory
    }
}
