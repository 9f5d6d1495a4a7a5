//! Walking along the file of a unit, as the check of its parts does.

ghost use Rattle.std.specs.Prelude.{◌≡◌, ◌+◌, [], ◌∷◌};
ghost use Rattle.fat_code.specs.Lengths.{name_bytes};
ghost use Rattle.fat_code.specs.Rows.{row, index_row, limit_row};
ghost use Rattle.fat_code.specs.Walking.{Checks, Clears};

use crate::fault::{CheckNo, UnitFault};

/// So many bytes further on. NoMemory where no file is as long.
pub(crate) fn further(at: u64, bytes: u64) -> Result<u64, CheckNo>
    ensures { Checks [] (at + bytes) result }
{
    match at.checked_add(bytes) {
        Some(there) => Ok(there),
        None => Err(CheckNo::NoMemory),
    }
}

/// The fault at an offset, where it is there.
pub(crate) fn test(fault: UnitFault, holds: bool, at: u64) -> Result<(), CheckNo>
    ensures { Clears (row fault holds at ∷ []) result }
{
    if holds {
        Err(CheckNo::Fault(fault, at))
    } else {
        Ok(())
    }
}

/// The same of a number of 4 bytes; gives the offset behind it.
pub(crate) fn number(fault: UnitFault, holds: bool, at: u64) -> Result<u64, CheckNo>
    ensures { Checks (row fault holds at ∷ []) (at + 4) result }
{
    test(fault, holds, at)?;
    further(at, 4)
}

/// An index of one of so many things.
pub(crate) fn index(index: u32, count: usize, at: u64) -> Result<u64, CheckNo>
    ensures { Checks (index_row index count at ∷ []) (at + 4) result }
{
    let is_there = (index as usize) < count;
    number(UnitFault::Index, !is_there, at)
}

/// A number with a limit.
pub(crate) fn limit(limit: u64, value: u64, at: u64) -> Result<u64, CheckNo>
    ensures { Checks (limit_row limit value at ∷ []) (at + 4) result }
{
    number(UnitFault::Limit, limit < value, at)
}

/// A name: its count and its bytes.
pub(crate) fn name(name: &[u8], at: u64) -> Result<u64, CheckNo>
    ensures { Checks [] (at + name_bytes name.now) result }
{
    let bytes_at = further(at, 4)?;
    further(bytes_at, name.len() as u64)
}
