//! Why a block is not made.

ghost use Rattle.std.specs.Prelude.{◌≡◌};
ghost use Rattle.byte_blocks.specs.declared.make_no.MakeNo.TheVariants as refusals;

use fsc_base::NoMemory;
use std::alloc::{AllocError, AllocFailed};

/// Why a block is not made.
#[derive(Clone, Copy, Debug, PartialEq, Eq)]
pub enum MakeNo {
    /// Storage or virtual addresses would not reach.
    Full,
    /// No memory was left for the block.
    NoMemory,
}

impl From<NoMemory> for MakeNo {
    ghost from_gives = { λ _ refusal. refusal ≡ refusals.NoMemory };

    fn from(_error: NoMemory) -> MakeNo {
        MakeNo::NoMemory
    }
}

impl From<AllocError> for MakeNo {
    ghost from_gives = { λ _ refusal. refusal ≡ refusals.NoMemory };

    fn from(_error: AllocError) -> MakeNo {
        MakeNo::NoMemory
    }
}

impl<T: Drop> From<AllocFailed<T>> for MakeNo {
    ghost from_gives = { λ _ refusal. refusal ≡ refusals.NoMemory };

    fn from(_error: AllocFailed<T>) -> MakeNo {
        MakeNo::NoMemory
    }
}
