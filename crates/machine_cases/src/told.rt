//! Answers of steps.

use case_table::NoStep;
use std::alloc::Global;

/// What came of a step: its answer, or None where it is no step of this part.
pub type Told = Result<Option<String>, NoStep>;

/// A word as an answer.
pub fn tell(alloc: Global, word: &str) -> Told {
    Ok(Some(String::from_str(alloc, word)?))
}

/// A number as an answer, in hexadecimal digits.
pub fn tell_number(alloc: Global, number: u32) -> Told {
    Ok(Some(format!(in alloc; "0x{number:x}")?))
}

/// A count as an answer, in decimal digits.
pub fn tell_count(alloc: Global, count: u64) -> Told {
    Ok(Some(format!(in alloc; "{count}")?))
}

/// Whether something holds, as an answer.
pub fn tell_whether(alloc: Global, holds: bool) -> Told {
    tell(alloc, if holds { "yes" } else { "no" })
}
