//! Why a list of tokens is refused.

ghost use Rattle.c_cursor.specs.Causes.{IsParseRefusal};

use fsc_base::{Broken, NoMemory, Place, Refused, Rule};
use std::alloc::{AllocError, AllocFailed};

/// Why a list of tokens, or a part of one, is refused.
#[derive(Clone, Copy, Debug, PartialEq, Eq)]
pub enum ParseRefused {
    /// No derivable list goes on with the token at this place (rule K01).
    Unexpected(Place),
    /// What goes on with the token at this place lies too deep (rule L03).
    TooDeep(Place),
    /// No memory was left for what had to be kept.
    NoMemory,
}

impl ParseRefused {
    /// The same as a refusal of a text: by rule K01 or L03 at that place, or for want of memory.
    pub fn refused(self) -> Refused
        ensures { IsParseRefusal result }
    {
        match self {
            ParseRefused::Unexpected(place) => Refused::Broken(Broken {
                rule: Rule::K01,
                place,
            }),
            ParseRefused::TooDeep(place) => Refused::Broken(Broken {
                rule: Rule::L03,
                place,
            }),
            ParseRefused::NoMemory => Refused::NoMemory,
        }
    }
}

impl From<NoMemory> for ParseRefused {
    fn from(_refusal: NoMemory) -> ParseRefused {
        ParseRefused::NoMemory
    }
}

impl From<AllocError> for ParseRefused {
    fn from(_error: AllocError) -> ParseRefused {
        ParseRefused::NoMemory
    }
}

impl<T: Drop> From<AllocFailed<T>> for ParseRefused {
    fn from(_error: AllocFailed<T>) -> ParseRefused {
        ParseRefused::NoMemory
    }
}
