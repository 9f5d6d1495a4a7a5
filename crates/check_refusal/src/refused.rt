//! Why a tree is refused.

ghost use Rattle.check_refusal.specs.Causes.{IsCheckRefusal};

use crate::rule::CheckRule;
use fsc_base::{Broken, NoMemory, Place, Refused};
use std::alloc::{AllocError, AllocFailed};

/// Why a tree, or a part of one, is refused.
#[derive(Clone, Copy, Debug, PartialEq, Eq)]
pub enum CheckRefused {
    /// It breaks a rule, there.
    Broken(CheckRule, Place),
    /// No memory was left for what had to be kept.
    NoMemory,
}

/// The refusal of what breaks a rule at a place.
pub fn broken(rule: CheckRule, place: Place) -> CheckRefused {
    CheckRefused::Broken(rule, place)
}

impl CheckRefused {
    /// The same as a refusal of a text.
    pub fn refused(self) -> Refused
        ensures { IsCheckRefusal result }
    {
        match self {
            CheckRefused::Broken(rule, place) => Refused::Broken(Broken {
                rule: rule.rule(),
                place,
            }),
            CheckRefused::NoMemory => Refused::NoMemory,
        }
    }
}

impl From<NoMemory> for CheckRefused {
    fn from(_refusal: NoMemory) -> CheckRefused {
        CheckRefused::NoMemory
    }
}

impl From<AllocError> for CheckRefused {
    fn from(_error: AllocError) -> CheckRefused {
        CheckRefused::NoMemory
    }
}

impl<T: Drop> From<AllocFailed<T>> for CheckRefused {
    fn from(_error: AllocFailed<T>) -> CheckRefused {
        CheckRefused::NoMemory
    }
}
