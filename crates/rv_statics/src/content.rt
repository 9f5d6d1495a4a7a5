//! What the blocks at the start of a run are.

use rv_asm::AsmNo;
use std::alloc::Global;

/// What a block is.
#[derive(Clone, Copy, Debug, PartialEq, Eq)]
pub enum Content {
    /// Nothing said what.
    Unknown,
    /// A function whose code is at this address.
    Function(u32),
    /// An object whose shape has the record with this number.
    Object(u32),
}

/// What each block is, by its number from 1.
#[derive(Debug, Drop)]
pub struct Contents {
    items: Vec<Content>,
}

impl Contents {
    /// So many blocks of which nothing is said.
    pub fn new(alloc: Global, blocks: usize) -> Result<Contents, AsmNo> {
        Ok(Contents {
            items: vec![in alloc; Content::Unknown; blocks]?,
        })
    }

    /// Says what a block is. Refused with `Misfit` where there is no block with that number.
    pub fn set(&mut self, block: u32, content: Content) -> Result<(), AsmNo> {
        let Some(index) = (block as usize).checked_sub(1) else {
            return Err(AsmNo::Misfit);
        };
        if self.items.len() <= index {
            return Err(AsmNo::Misfit);
        }
        self.items[index] = content;
        Ok(())
    }

    /// What each block is, in order.
    pub fn as_slice(&self) -> &[Content] {
        self.items.as_slice()
    }
}
