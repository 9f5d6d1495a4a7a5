//! Why units are not linked.

use c_link::LinkFault;
use fat_code::CheckNo;
use fsc_base::{Bytes, Name, NoMemory, Rule};
use start_blocks::{MAIN, StartNo};
use std::alloc::{AllocError, AllocFailed, Global};

/// Why units are not linked.
#[derive(Debug, Drop)]
pub enum LinkNo {
    /// They break a rule of linking.
    Refused(LinkFault),
    /// A number of a unit names nothing. No unit without faults is such.
    Misfit,
    /// No memory was left.
    NoMemory,
}

impl From<NoMemory> for LinkNo {
    fn from(_refusal: NoMemory) -> LinkNo {
        LinkNo::NoMemory
    }
}

impl From<AllocError> for LinkNo {
    fn from(_error: AllocError) -> LinkNo {
        LinkNo::NoMemory
    }
}

impl<T: Drop> From<AllocFailed<T>> for LinkNo {
    fn from(_error: AllocFailed<T>) -> LinkNo {
        LinkNo::NoMemory
    }
}

impl From<StartNo> for LinkNo {
    fn from(refusal: StartNo) -> LinkNo {
        match refusal {
            StartNo::Misfit | StartNo::Full => LinkNo::Misfit,
            StartNo::NoMemory => LinkNo::NoMemory,
        }
    }
}

impl From<CheckNo> for LinkNo {
    fn from(refusal: CheckNo) -> LinkNo {
        match refusal {
            CheckNo::Fault(_, _) => LinkNo::Misfit,
            CheckNo::NoMemory => LinkNo::NoMemory,
        }
    }
}

/// A number in decimal.
pub(crate) fn decimal(alloc: Global, number: u64) -> Result<Bytes, NoMemory> {
    let text = number.to_string(alloc)?;
    Bytes::from_slice(alloc, text.as_str().as_bytes())
}

/// A broken rule, without texts.
pub(crate) fn broken(alloc: Global, rule: Rule, name: &[u8]) -> Result<LinkFault, NoMemory> {
    Ok(LinkFault {
        rule,
        name: Name::from_slice(alloc, name)?,
        first: Bytes::from_slice(alloc, b"")?,
        second: Bytes::from_slice(alloc, b"")?,
    })
}

/// A broken rule with two texts.
pub(crate) fn broken_by(
    alloc: Global,
    rule: Rule,
    name: &[u8],
    first: Bytes,
    second: Bytes,
) -> Result<LinkFault, NoMemory> {
    Ok(LinkFault {
        rule,
        name: Name::from_slice(alloc, name)?,
        first,
        second,
    })
}

/// A broken rule with two numbers.
pub(crate) fn broken_at(
    alloc: Global,
    rule: Rule,
    name: &[u8],
    first: u64,
    second: u64,
) -> Result<LinkFault, NoMemory> {
    let first = decimal(alloc, first)?;
    let second = decimal(alloc, second)?;
    broken_by(alloc, rule, name, first, second)
}

/// A count that is above its limit, for which the program's function `main` answers.
pub(crate) fn above(
    alloc: Global,
    rule: Rule,
    count: u64,
    limit: u64,
) -> Result<LinkFault, NoMemory> {
    broken_at(alloc, rule, MAIN, count, limit)
}
