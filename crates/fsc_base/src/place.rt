//! Where a rule is broken.

ghost use Rattle.std.specs.Prelude.{◌≡◌};
ghost use Rattle.fsc_base.specs.declared.place.Refused.TheVariants as refusals;

use crate::memory::NoMemory;
use crate::rule::Rule;
use std::alloc::{AllocError, AllocFailed};

/// A place in a unit's text.
#[derive(Clone, Copy, Debug, PartialEq, Eq)]
pub struct Place {
    /// The number of the unit in link order, from 0.
    pub unit: u32,
    /// The index of the file in the unit's list of files in order of first opening; 0 is the unit's own.
    pub file: u32,
    /// The physical line in that file, from 1.
    pub line: u32,
}

/// A rule that a text breaks, and where.
#[derive(Clone, Copy, Debug, PartialEq, Eq)]
pub struct Broken {
    pub rule: Rule,
    pub place: Place,
}

/// Why a text, or a part of one, was refused.
#[derive(Clone, Copy, Debug, PartialEq, Eq)]
pub enum Refused {
    /// It breaks a rule.
    Broken(Broken),
    /// No memory was left for what had to be kept.
    NoMemory,
}

impl From<NoMemory> for Refused {
    ghost from_gives = { λ _ refused. refused ≡ refusals.NoMemory };

    fn from(_refusal: NoMemory) -> Refused {
        Refused::NoMemory
    }
}

impl From<AllocError> for Refused {
    ghost from_gives = { λ _ refused. refused ≡ refusals.NoMemory };

    fn from(_error: AllocError) -> Refused {
        Refused::NoMemory
    }
}

impl<T: Drop> From<AllocFailed<T>> for Refused {
    ghost from_gives = { λ _ refused. refused ≡ refusals.NoMemory };

    fn from(_error: AllocFailed<T>) -> Refused {
        Refused::NoMemory
    }
}
