//! Blocks of bytes and cells, side by side.

use crate::call::Call;
use crate::reading::{base_in, call_of};
use crate::told::{Told, tell};
use crate::{blocks, cells};
use byte_blocks::Heap;
use case_table::{NoStep, number_of};
use cell_store::CellStore;
use fsc_base::{Width, Word};
use std::alloc::Global;
use type_desc::Shapes;

/// How many bytes the region of a case has, unless it says so.
const REGION: u32 = 4096;

/// The virtual base of the first block.
const FIRST_BASE: u32 = 0x1_0000;

/// The memory of a case: as blocks of bytes, as cells, or, as it begins, as both.
#[derive(Drop)]
pub struct Twins {
    blocks: Option<Heap>,
    cells: Option<CellStore>,
    /// The virtual bases of the blocks that were made, in order, and the next one.
    bases: Vec<u32>,
    next_base: u32,
}

/// The one answer of both, or both where they are not the same.
fn together(alloc: Global, blocks: Option<String>, cells: Option<String>) -> Told {
    if let (Some(blocks), Some(cells)) = (&blocks, &cells) {
        if blocks.as_str() != cells.as_str() {
            return Ok(Some(format!(in alloc; "blocks {blocks}, cells {cells}")?));
        }
    }
    Ok(blocks.or(cells))
}

impl Twins {
    /// No blocks, as both.
    pub fn new(alloc: Global) -> Result<Twins, NoStep> {
        Ok(Twins {
            blocks: Some(Heap::new(alloc)),
            cells: Some(CellStore::new(alloc, REGION)?),
            bases: Vec::new(alloc),
            next_base: FIRST_BASE,
        })
    }

    /// The virtual bases of the blocks that were made.
    pub fn bases(&self) -> &[u32] {
        &self.bases
    }

    /// Whether a write or a copy to a block waits for its descriptor.
    fn waits(&self, call: Call) -> bool {
        match (&self.cells, call) {
            (Some(cells), Call::Write(at, ..)) => !cells::is_decided(cells, at.block),
            (Some(cells), Call::Copy { to, from, .. }) => {
                !cells::is_copyable(cells, to.block, from.block)
            }
            _ => false,
        }
    }

    /// Keeps the base of a block of so many bytes that was made: the next one lies behind it by its size, rounded up to a
    /// multiple of 16, and 16.
    fn keep_base(&mut self, size: u32) -> Result<(), NoStep> {
        self.bases.push(self.next_base)?;
        let rounded = (u64::from(size) + 15) / 16 * 16 + 16;
        let next = u64::from(self.next_base) + rounded;
        self.next_base = u32::try_from(next).unwrap_or(u32::MAX);
        Ok(())
    }

    /// The answer to a call, from both where both are there. A call on an object that waits is not made.
    pub fn answer(&mut self, alloc: Global, shapes: &Shapes, call: Call) -> Told {
        if self.waits(call) {
            return tell(alloc, "undecided");
        }
        let blocks = match &mut self.blocks {
            Some(heap) => blocks::answer(heap, alloc, call)?,
            None => None,
        };
        let cells = match &mut self.cells {
            Some(store) => cells::answer(store, shapes, alloc, call)?,
            None => None,
        };
        let answer = together(alloc, blocks, cells)?;
        match (&answer, call) {
            (Some(made), Call::Make { size, .. }) if made.parse::<u32>().is_ok() => {
                self.keep_base(size)?;
            }
            (Some(made), Call::Function) if made.parse::<u32>().is_ok() => self.keep_base(0)?,
            _ => {}
        }
        Ok(answer)
    }

    /// The first offset below a limit where a byte or a word of a block is not read alike, if there is one.
    pub fn apart(
        &mut self,
        alloc: Global,
        shapes: &Shapes,
        block: u32,
        limit: u32,
    ) -> Result<Option<u32>, NoStep> {
        for offset in 0..limit {
            let at = Word {
                value: base_in(&self.bases, block).wrapping_add(offset),
                block,
            };
            for width in [Width::One, Width::Two, Width::Four] {
                match self.answer(alloc, shapes, Call::Read(at, width))? {
                    Some(answer) if answer.starts_with("blocks") => return Ok(Some(offset)),
                    _ => {}
                }
            }
        }
        Ok(None)
    }

    /// Reads all of a block's bytes below a limit, and words at each of them, from both.
    fn reads(&mut self, alloc: Global, shapes: &Shapes, block: u32, limit: u32) -> Told {
        match self.apart(alloc, shapes, block, limit)? {
            Some(offset) => Ok(Some(format!(in alloc; "apart at {offset}")?)),
            None => tell(alloc, "alike"),
        }
    }

    /// Does a step that only blocks or only cells have.
    fn own_step(&mut self, alloc: Global, words: &[&str]) -> Told {
        if let Some(heap) = &mut self.blocks {
            if let Some(answer) = blocks::step(heap, alloc, words, &self.bases)? {
                return Ok(Some(answer));
            }
        }
        match &mut self.cells {
            Some(store) => cells::step(store, alloc, words),
            None => Ok(None),
        }
    }

    /// Does a step of memory.
    pub fn step(&mut self, alloc: Global, words: &[&str], shapes: &Shapes) -> Told {
        match words {
            ["only", "blocks"] => self.cells = None,
            ["only", "cells"] => self.blocks = None,
            ["region", bytes] => self.cells = Some(CellStore::new(alloc, number_of(bytes)?)?),
            ["reads", block, limit] => {
                return self.reads(alloc, shapes, number_of(block)?, number_of(limit)?);
            }
            _ => {
                return match call_of(words, &self.bases)? {
                    Some(call) => self.answer(alloc, shapes, call),
                    None => self.own_step(alloc, words),
                };
            }
        }
        tell(alloc, "ok")
    }
}
