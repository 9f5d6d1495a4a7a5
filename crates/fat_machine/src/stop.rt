//! What a step answers.

ghost use Rattle.std.specs.Prelude.{◌≡◌};
ghost use Rattle.fat_machine.specs.declared.stop.Stop.TheVariants as stops;

use c_memory::{CopyNo, Outside, WriteNo};
use fsc_base::{End, NoMemory};
use std::alloc::{AllocError, AllocFailed};

/// What a step of the machine gives. After every answer but `Next` a further step has no promise.
#[derive(Clone, Copy, Debug, PartialEq, Eq)]
pub enum FatStep {
    /// One more operation was done, or a block was made or ended.
    Next,
    /// The run has ended.
    Ended(End),
    /// The source of the input failed.
    ReadFault,
    /// The sink of the output failed.
    WriteFault,
    /// No memory was left.
    NoMemory,
    /// An index of the program names nothing, or an operation finds too few words: the units have a fault, or do not fit the lists
    /// of blocks.
    Misfit,
}

/// Why a program makes no machine.
#[derive(Clone, Copy, Debug, PartialEq, Eq)]
pub enum MachineNo {
    /// Its lists, its heap and its units do not fit.
    Misfit,
    /// No memory was left.
    NoMemory,
}

impl From<NoMemory> for MachineNo {
    fn from(_refusal: NoMemory) -> MachineNo {
        MachineNo::NoMemory
    }
}

impl From<AllocError> for MachineNo {
    fn from(_error: AllocError) -> MachineNo {
        MachineNo::NoMemory
    }
}

impl<T: Drop> From<AllocFailed<T>> for MachineNo {
    fn from(_error: AllocFailed<T>) -> MachineNo {
        MachineNo::NoMemory
    }
}

/// Why a step is not followed by another.
#[derive(Clone, Copy, Debug, PartialEq, Eq)]
pub(crate) enum Stop {
    Ended(End),
    ReadFault,
    WriteFault,
    NoMemory,
    Misfit,
}

impl Stop {
    /// The same, as a step answers it.
    pub fn answer(self) -> FatStep {
        match self {
            Stop::Ended(end) => FatStep::Ended(end),
            Stop::ReadFault => FatStep::ReadFault,
            Stop::WriteFault => FatStep::WriteFault,
            Stop::NoMemory => FatStep::NoMemory,
            Stop::Misfit => FatStep::Misfit,
        }
    }
}

impl From<AllocError> for Stop {
    fn from(_error: AllocError) -> Stop {
        Stop::NoMemory
    }
}

impl<T: Drop> From<AllocFailed<T>> for Stop {
    fn from(_error: AllocFailed<T>) -> Stop {
        Stop::NoMemory
    }
}

/// An access that is refused ends the run.
pub(crate) fn outside_end(at: Outside) -> End {
    End::Access {
        block: at.block,
        offset: at.offset,
        width: at.width,
    }
}

/// So does a write into a sealed block.
pub(crate) fn read_only_end(at: Outside) -> End {
    End::ReadOnly {
        block: at.block,
        offset: at.offset,
        width: at.width,
    }
}

/// A write that is refused.
pub(crate) fn write_stop(no: WriteNo) -> Stop {
    match no {
        WriteNo::Outside(at) => Stop::Ended(outside_end(at)),
        WriteNo::ReadOnly(at) => Stop::Ended(read_only_end(at)),
    }
}

/// A copy that is refused.
pub(crate) fn copy_stop(no: CopyNo) -> Stop {
    match no {
        CopyNo::Outside(at) => Stop::Ended(outside_end(at)),
        CopyNo::ReadOnly(at) => Stop::Ended(read_only_end(at)),
        CopyNo::NoMemory => Stop::NoMemory,
    }
}
