//! Why a typed unit is not elaborated.

ghost use Rattle.std.specs.Prelude.{◌≡◌};
ghost use Rattle.elab_setting.specs.declared.refusal.ElaborateNo.TheVariants as refusals;

use fsc_base::NoMemory;
use std::alloc::{AllocError, AllocFailed};

/// Why a typed unit is not elaborated.
#[derive(Clone, Copy, Debug, PartialEq, Eq)]
pub enum ElaborateNo {
    /// A number of the unit names nothing, or its parts do not fit together. No unit that the checker gives is refused so.
    Misfit,
    /// No memory was left for what had to be kept.
    NoMemory,
}

impl From<NoMemory> for ElaborateNo {
    ghost from_gives = { λ _ refusal. refusal ≡ refusals.NoMemory };

    fn from(_refusal: NoMemory) -> ElaborateNo {
        ElaborateNo::NoMemory
    }
}

impl From<AllocError> for ElaborateNo {
    ghost from_gives = { λ _ refusal. refusal ≡ refusals.NoMemory };

    fn from(_error: AllocError) -> ElaborateNo {
        ElaborateNo::NoMemory
    }
}

impl<T: Drop> From<AllocFailed<T>> for ElaborateNo {
    ghost from_gives = { λ _ refusal. refusal ≡ refusals.NoMemory };

    fn from(_error: AllocFailed<T>) -> ElaborateNo {
        ElaborateNo::NoMemory
    }
}
