//! The data segment.

use crate::bytes::{count, next_sixteen, push_words, push_zeros};
use crate::shapes::ShapeRecords;
use fsc_base::{Bytes, Segment};
use rv_asm::AsmNo;
use rv_runtime::layout::{CLASSES, MAKERS_SIZE, READ_WRITTEN, RECORDS};
use std::alloc::Global;

/// What the runtime knows of the blocks at the start of a run.
#[derive(Clone, Copy, Debug)]
pub struct Counts {
    pub made: u32,
    pub next_base: u32,
    /// The lowest address of a cell.
    pub bottom: u32,
}

/// Adds what stands in front of the records: the counts, no free cells, and the address of the makers.
fn push_counts(bytes: &mut Vec<u8>, counts: Counts, makers: u32) -> Result<(), AsmNo> {
    push_words(bytes, &[counts.made, counts.next_base, counts.bottom, 0])?;
    push_words(bytes, &[0; CLASSES])?;
    push_words(bytes, &[makers, 0])
}

/// The data segment at an address: the counts, the records of shapes, and behind them the makers, of which no bytes are given.
pub fn data_segment(
    alloc: Global,
    address: u32,
    counts: Counts,
    records: &ShapeRecords,
) -> Result<Segment, AsmNo> {
    let Some(end) = count(records.bytes())?.checked_add(RECORDS) else {
        return Err(AsmNo::Misfit);
    };
    let given = next_sixteen(end)?;
    let (Some(makers), Some(size)) = (address.checked_add(given), given.checked_add(MAKERS_SIZE))
    else {
        return Err(AsmNo::Misfit);
    };
    let mut bytes = Vec::new(alloc);
    push_counts(&mut bytes, counts, makers)?;
    bytes.extend_from_slice(records.bytes())?;
    push_zeros(&mut bytes, given.wrapping_sub(end))?;
    Ok(Segment {
        address,
        size,
        flags: READ_WRITTEN,
        bytes: Bytes::from_vec(bytes),
    })
}
