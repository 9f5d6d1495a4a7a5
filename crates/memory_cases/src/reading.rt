//! How steps spell words of C, widths, kinds of blocks and calls.

use crate::call::Call;
use c_memory::BlockKind;
use case_table::{NoStep, number_of};
use fsc_base::{Width, Word};

/// The width of so many bytes.
fn width_of(word: &str) -> Result<Width, NoStep> {
    match word {
        "1" => Ok(Width::One),
        "2" => Ok(Width::Two),
        "4" => Ok(Width::Four),
        _ => Err(NoStep::Malformed("no width")),
    }
}

/// The kind of that name.
fn kind_of(word: &str) -> Result<BlockKind, NoStep> {
    match word {
        "static" => Ok(BlockKind::Static),
        "entry" => Ok(BlockKind::Entry),
        "alloc" => Ok(BlockKind::Alloc),
        _ => Err(NoStep::Malformed("no kind of an object")),
    }
}

/// The virtual base of a block, or 0 where none was made.
pub fn base_in(bases: &[u32], block: u32) -> u32 {
    match block.checked_sub(1) {
        Some(index) => bases.get(index as usize).copied().unwrap_or(0),
        None => 0,
    }
}

/// A word of C: a value, a value and its block as `VALUE@BLOCK`, or a block's address plus an offset as `BLOCK+OFFSET`.
pub fn at_of(word: &str, bases: &[u32]) -> Result<Word, NoStep> {
    if let Some((value, block)) = word.split_once('@') {
        return Ok(Word {
            value: number_of(value)?,
            block: number_of(block)?,
        });
    }
    let Some((block, offset)) = word.split_once('+') else {
        return Ok(Word {
            value: number_of(word)?,
            block: 0,
        });
    };
    let block = number_of(block)?;
    Ok(Word {
        value: base_in(bases, block).wrapping_add(number_of(offset)?),
        block,
    })
}

/// The call that words spell, if they spell one.
pub fn call_of(words: &[&str], bases: &[u32]) -> Result<Option<Call>, NoStep> {
    Ok(Some(match words {
        ["function"] => Call::Function,
        ["make", size, desc] => Call::Make {
            size: number_of(size)?,
            desc: number_of(desc)?,
            kind: BlockKind::Alloc,
        },
        ["make", size, desc, kind] => Call::Make {
            size: number_of(size)?,
            desc: number_of(desc)?,
            kind: kind_of(kind)?,
        },
        ["kill", block] => Call::Kill(number_of(block)?),
        ["seal", block] => Call::Seal(number_of(block)?),
        ["read", at, width] => Call::Read(at_of(at, bases)?, width_of(width)?),
        ["write", at, width, what] => {
            Call::Write(at_of(at, bases)?, width_of(width)?, at_of(what, bases)?)
        }
        ["copy", to, from, count] => Call::Copy {
            to: at_of(to, bases)?,
            from: at_of(from, bases)?,
            count: number_of(count)?,
        },
        ["size", block] => Call::Size(number_of(block)?),
        ["base", block] => Call::Base(number_of(block)?),
        _ => return Ok(None),
    }))
}
