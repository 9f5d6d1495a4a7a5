//! Why a function has no rows.

use fsc_base::NoMemory;
use std::alloc::{AllocError, AllocFailed};

/// Why a function is refused.
#[derive(Clone, Copy, Debug, PartialEq, Eq)]
pub enum RowsNo {
    /// A number in its tree names nothing, a `break`, `continue`, `case` or `default` stands outside of what it belongs to, or
    /// there are more than 2^32 - 1 rows. No unit that the checker gives is such.
    Misfit,
    /// No memory was left.
    NoMemory,
}

impl From<NoMemory> for RowsNo {
    fn from(_refusal: NoMemory) -> RowsNo {
        RowsNo::NoMemory
    }
}

impl From<AllocError> for RowsNo {
    fn from(_error: AllocError) -> RowsNo {
        RowsNo::NoMemory
    }
}

impl<T: Drop> From<AllocFailed<T>> for RowsNo {
    fn from(_error: AllocFailed<T>) -> RowsNo {
        RowsNo::NoMemory
    }
}
