//! Why a unit has no tokens.

ghost use Rattle.std.specs.Prelude.{◌≡◌};
ghost use Rattle.fsc_base.specs.declared.place.Refused.TheVariants as reasons;
ghost use Rattle.cpp_text.specs.Stops.{stop_of};
ghost use Rattle.cpp_text.specs.declared.refusal.Stop.TheVariants as stops;

use fsc_base::{Broken, Name, NoMemory, Place, Refused, Rule};
use std::alloc::{AllocError, AllocFailed};

/// Why a unit was not preprocessed.
#[derive(Debug, Drop)]
pub enum PpNo {
    /// It breaks a rule, at a place in the file of that name.
    Broken(Broken, Name),
    /// The unit's own file is not there.
    Missing,
    /// The file of that name could not be read.
    FileFault(Name),
    NoMemory,
}

/// Why the work on a unit stopped, where its own file was read.
#[derive(Debug, Drop)]
pub enum Stop {
    /// A rule is broken.
    Broken(Broken),
    /// The file of that name could not be read.
    FileFault(Name),
    NoMemory,
}

/// A rule is broken by the directive whose `#` stands there.
pub fn broken(rule: Rule, hash: Place) -> Refused
    ensures { result ≡ reasons.Broken (record { rule = rule; place = hash }) }
{
    Refused::Broken(Broken { rule, place: hash })
}

impl From<Refused> for Stop {
    ghost from_gives = { λ refusal stop. stop ≡ stop_of refusal };

    fn from(refusal: Refused) -> Stop {
        match refusal {
            Refused::Broken(broken) => Stop::Broken(broken),
            Refused::NoMemory => Stop::NoMemory,
        }
    }
}

impl From<NoMemory> for Stop {
    ghost from_gives = { λ _ stop. stop ≡ stops.NoMemory };

    fn from(_refusal: NoMemory) -> Stop {
        Stop::NoMemory
    }
}

impl From<AllocError> for Stop {
    ghost from_gives = { λ _ stop. stop ≡ stops.NoMemory };

    fn from(_error: AllocError) -> Stop {
        Stop::NoMemory
    }
}

impl<T: Drop> From<AllocFailed<T>> for Stop {
    ghost from_gives = { λ _ stop. stop ≡ stops.NoMemory };

    fn from(_error: AllocFailed<T>) -> Stop {
        Stop::NoMemory
    }
}
