//! Numbers in tables.

use crate::refusal::NoStep;

/// The number that a word spells: decimal digits, or hexadecimal ones behind `0x`.
fn read(word: &str) -> Option<u64> {
    match word.strip_prefix("0x") {
        Some(digits) => u64::from_str_radix(digits, 16).ok(),
        None => word.parse::<u64>().ok(),
    }
}

/// The number of 32 bits that a word spells. Refused where it spells none.
pub fn number_of(word: &str) -> Result<u32, NoStep> {
    match read(word).map(u32::try_from) {
        Some(Ok(number)) => Ok(number),
        _ => Err(NoStep::Malformed("no number of 32 bits")),
    }
}

/// The number of 64 bits that a word spells. Refused where it spells none.
pub fn index_of(word: &str) -> Result<u64, NoStep> {
    read(word).ok_or(NoStep::Malformed("no number of 64 bits"))
}

/// The signed number of 32 bits that a word spells, with a `-` before it where it is negative. Refused where it spells
/// none.
pub fn immediate_of(word: &str) -> Result<i32, NoStep> {
    word.parse::<i32>()
        .map_err(|_| NoStep::Malformed("no signed number of 32 bits"))
}

/// Whether both words spell the same number.
pub fn same_number(one: &str, other: &str) -> bool {
    match (read(one), read(other)) {
        (Some(one), Some(other)) => one == other,
        _ => false,
    }
}
