//! Why a unit file is not read.

ghost use Rattle.std.specs.Prelude.{◌≡◌};
ghost use Rattle.unit_file.specs.declared.refusal.ReadUnitNo.TheVariants as refusals;

use fat_code::{CheckNo, UnitFault};
use fsc_base::NoMemory;
use std::alloc::{AllocError, AllocFailed};

/// Why `read_unit` refuses.
#[derive(Clone, Copy, Debug, PartialEq, Eq)]
pub enum ReadUnitNo {
    /// The bytes are no unit. This is their first fault, and its offset in bytes.
    Bad { fault: UnitFault, offset: u32 },
    /// No memory was left for the unit.
    NoMemory,
}

impl From<NoMemory> for ReadUnitNo {
    ghost from_gives = { λ _ refusal. refusal ≡ refusals.NoMemory };

    fn from(_refusal: NoMemory) -> ReadUnitNo {
        ReadUnitNo::NoMemory
    }
}

impl From<AllocError> for ReadUnitNo {
    ghost from_gives = { λ _ refusal. refusal ≡ refusals.NoMemory };

    fn from(_error: AllocError) -> ReadUnitNo {
        ReadUnitNo::NoMemory
    }
}

impl<T: Drop> From<AllocFailed<T>> for ReadUnitNo {
    ghost from_gives = { λ _ refusal. refusal ≡ refusals.NoMemory };

    fn from(_error: AllocFailed<T>) -> ReadUnitNo {
        ReadUnitNo::NoMemory
    }
}
