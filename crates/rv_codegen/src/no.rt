//! Why no image is made.

use fsc_base::NoMemory;
use rv_asm::AsmNo;
use std::alloc::{AllocError, AllocFailed};

/// Why no image is made of a program.
#[derive(Clone, Copy, Debug, PartialEq, Eq)]
pub enum GenerateNo {
    /// A number of the program names nothing, or is above what a unit or program may have.
    Misfit,
    /// No memory was left.
    NoMemory,
}

impl From<NoMemory> for GenerateNo {
    fn from(_error: NoMemory) -> GenerateNo {
        GenerateNo::NoMemory
    }
}

impl From<AllocError> for GenerateNo {
    fn from(_error: AllocError) -> GenerateNo {
        GenerateNo::NoMemory
    }
}

impl<T: Drop> From<AllocFailed<T>> for GenerateNo {
    fn from(_error: AllocFailed<T>) -> GenerateNo {
        GenerateNo::NoMemory
    }
}

impl From<AsmNo> for GenerateNo {
    fn from(error: AsmNo) -> GenerateNo {
        match error {
            AsmNo::Misfit => GenerateNo::Misfit,
            AsmNo::NoMemory => GenerateNo::NoMemory,
        }
    }
}
