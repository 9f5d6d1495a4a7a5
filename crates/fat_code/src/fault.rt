//! What can be wrong with a unit file.

ghost use Rattle.std.specs.Prelude.{◌≡◌};
ghost use Rattle.fat_code.specs.declared.fault.CheckNo.TheVariants as refusals;

use fsc_base::NoMemory;
use std::alloc::{AllocError, AllocFailed};

/// A fault of a unit file.
#[derive(Clone, Copy, Debug, PartialEq, Eq)]
pub enum UnitFault {
    /// The bytes end inside a value.
    Short,
    /// The first three bytes differ.
    Magic,
    /// The fourth byte is that of no version.
    Version,
    /// A tag or flag is none of its values.
    Tag,
    /// A number names nothing, or something that it may not name.
    Index,
    /// A number or count is above its limit.
    Limit,
    /// An operation finds too few words, or others than its label says, or the wrong one follows it, or a function has none.
    Height,
    /// Bytes follow the last field.
    Trailing,
}

/// A version of unit files. The first has no bit-fields.
#[derive(Clone, Copy, Debug, PartialEq, Eq)]
pub enum Version {
    One,
    Two,
}

/// Why parts make no unit.
#[derive(Clone, Copy, Debug, PartialEq, Eq)]
pub enum CheckNo {
    /// The first fault that they have in the order of their file of version 2, and its offset there, in bytes.
    Fault(UnitFault, u64),
    /// No memory was left for the check, or the parts are larger than any memory: their file would have 2^64 bytes or more.
    NoMemory,
}

impl From<NoMemory> for CheckNo {
    ghost from_gives = { λ _ refusal. refusal ≡ refusals.NoMemory };

    fn from(_refusal: NoMemory) -> CheckNo {
        CheckNo::NoMemory
    }
}

impl From<AllocError> for CheckNo {
    ghost from_gives = { λ _ refusal. refusal ≡ refusals.NoMemory };

    fn from(_error: AllocError) -> CheckNo {
        CheckNo::NoMemory
    }
}

impl<T: Drop> From<AllocFailed<T>> for CheckNo {
    ghost from_gives = { λ _ refusal. refusal ≡ refusals.NoMemory };

    fn from(_error: AllocFailed<T>) -> CheckNo {
        CheckNo::NoMemory
    }
}
