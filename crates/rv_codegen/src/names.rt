//! What the operations of a unit name.

use byte_blocks::Heap;
use fsc_base::Word;
use rv_statics::{ShapeRecords, base_of};
use rv_templates::ShapePlace;

/// What the numbers in a unit's operations mean.
#[derive(Clone, Copy)]
pub(crate) struct Names<'a> {
    /// The blocks at the start of a run.
    pub heap: &'a Heap,
    pub records: &'a ShapeRecords,
    /// For each shape the number of its record.
    pub shapes: &'a [u32],
    /// For each symbol its block.
    pub symbols: &'a [u32],
    /// For each object its block.
    pub objects: &'a [u32],
}

/// The address so many bytes behind the start of a block.
fn address_in(heap: &Heap, block: u32, offset: u32) -> Option<Word> {
    let base = base_of(heap, block)?;
    Some(Word {
        value: base.wrapping_add(offset),
        block,
    })
}

impl Names<'_> {
    /// The place of a shape, where there is one with this index.
    pub fn shape(&self, index: u32) -> Option<ShapePlace> {
        let number = *self.shapes.get(index as usize)?;
        Some(self.records.get(number)?.place)
    }

    /// The address behind what a symbol names, where it names a block.
    pub fn symbol(&self, index: u32, offset: u32) -> Option<Word> {
        let block = *self.symbols.get(index as usize)?;
        address_in(self.heap, block, offset)
    }

    /// The address in an object.
    pub fn object(&self, index: u32, offset: u32) -> Option<Word> {
        let block = *self.objects.get(index as usize)?;
        address_in(self.heap, block, offset)
    }
}
