//! Answers of steps.

use c_memory::{CopyNo, Outside, WriteNo};
use case_table::NoStep;
use fsc_base::Word;
use std::alloc::Global;

/// What came of a step: its answer, or None where it is no step of this part.
pub type Told = Result<Option<String>, NoStep>;

/// A word as an answer.
pub fn tell(alloc: Global, word: &str) -> Told {
    Ok(Some(String::from_str(alloc, word)?))
}

/// A number as an answer.
pub fn tell_number(alloc: Global, number: u64) -> Told {
    Ok(Some(format!(in alloc; "{number}")?))
}

/// Numbers as an answer.
pub fn tell_numbers(alloc: Global, numbers: &[u32]) -> Told {
    let mut text = String::new(alloc);
    for number in numbers {
        text.push_str(&format!(in alloc; "{number} ")?)?;
    }
    Ok(Some(text))
}

/// Whether something holds, as an answer.
pub fn tell_whether(alloc: Global, holds: bool) -> Told {
    tell(alloc, if holds { "yes" } else { "no" })
}

/// An access that is refused: why, its block, its offset and how many bytes.
fn tell_refused(alloc: Global, why: &str, access: Outside) -> Told {
    let (block, offset, width) = (access.block, access.offset, access.width);
    Ok(Some(format!(in alloc; "{why} {block} {offset} {width}")?))
}

/// What came of a read: a value, with `@` and its block where it has a base.
pub fn tell_read(alloc: Global, answer: Result<Word, Outside>) -> Told {
    match answer {
        Ok(word) if word.block == 0 => tell_number(alloc, u64::from(word.value)),
        Ok(word) => {
            let (value, block) = (word.value, word.block);
            Ok(Some(format!(in alloc; "{value}@{block}")?))
        }
        Err(access) => tell_refused(alloc, "outside", access),
    }
}

/// What came of a write.
pub fn tell_written(alloc: Global, answer: Result<(), WriteNo>) -> Told {
    match answer {
        Ok(()) => tell(alloc, "ok"),
        Err(WriteNo::Outside(access)) => tell_refused(alloc, "outside", access),
        Err(WriteNo::ReadOnly(access)) => tell_refused(alloc, "readonly", access),
    }
}

/// What came of a copy.
pub fn tell_copied(alloc: Global, answer: Result<(), CopyNo>) -> Told {
    match answer {
        Ok(()) => tell(alloc, "ok"),
        Err(CopyNo::Outside(access)) => tell_refused(alloc, "outside", access),
        Err(CopyNo::ReadOnly(access)) => tell_refused(alloc, "readonly", access),
        Err(CopyNo::NoMemory) => Err(NoStep::NoMemory),
    }
}
