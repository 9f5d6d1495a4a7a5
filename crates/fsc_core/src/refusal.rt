//! Why files give no program.

ghost use Rattle.std.specs.Prelude.{◌≡◌};
ghost use Rattle.fsc_core.specs.declared.refusal.CoreNo.TheVariants as core;

use c_link::LinkFault;
use fsc_base::{Broken, Name, NoMemory};
use std::alloc::{AllocError, AllocFailed};

/// Why files give no program.
#[derive(Debug, Drop)]
pub enum CoreNo {
    /// A text breaks a rule, at a place in the file of that name.
    Broken(Broken, Name),
    /// The file of that name, which the call names, is not there.
    Missing(Name),
    /// The file of that name could not be read.
    FileFault(Name),
    /// The units each are taken, and make no program.
    Link(LinkFault),
    /// A part of what was made of the files names none of its other parts.
    Misfit,
    NoMemory,
}

impl From<NoMemory> for CoreNo {
    ghost from_gives = { λ _ no. no ≡ core.NoMemory };

    fn from(_refusal: NoMemory) -> CoreNo {
        CoreNo::NoMemory
    }
}

impl From<AllocError> for CoreNo {
    ghost from_gives = { λ _ no. no ≡ core.NoMemory };

    fn from(_refusal: AllocError) -> CoreNo {
        CoreNo::NoMemory
    }
}

impl<T: Drop> From<AllocFailed<T>> for CoreNo {
    ghost from_gives = { λ _ no. no ≡ core.NoMemory };

    fn from(_refusal: AllocFailed<T>) -> CoreNo {
        CoreNo::NoMemory
    }
}
