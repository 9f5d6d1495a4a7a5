//! The blocks at the start of a run, as memory holds them.

use crate::bytes::{push_words, push_zeros};
use crate::cells::{class_of, object_cell};
use crate::content::{Content, Contents};
use crate::shapes::ShapeRecords;
use byte_blocks::Heap;
use fsc_base::Word;
use rv_asm::AsmNo;
use rv_runtime::layout::{REGION, REGION_SIZE};
use std::alloc::Global;

/// The descriptor of a function.
const FUNCTION: u32 = 1;

/// The virtual base of a block, where there is one with this number.
pub fn base_of(heap: &Heap, block: u32) -> Option<u32> {
    match heap.kind(block) {
        None => None,
        Some(_) => Some(heap.base(block)),
    }
}

/// A block, and where its cell is.
#[derive(Clone, Copy, Debug)]
struct StaticBlock {
    number: u32,
    content: Content,
    desc: u32,
    size: u32,
    base: u32,
    /// The address of its cell.
    cell: u32,
}

/// What the blocks are made of.
#[derive(Clone, Copy)]
pub struct Blocks<'a> {
    pub heap: &'a Heap,
    pub records: &'a ShapeRecords,
    /// The address of the data segment.
    pub data: u32,
}

/// All blocks, in order, and the lowest address of a cell.
#[derive(Drop)]
pub struct Statics {
    blocks: Vec<StaticBlock>,
    pub bottom: u32,
}

impl Blocks<'_> {
    /// The first word of a block's header.
    fn desc(&self, number: u32, content: Content) -> Option<u32> {
        match content {
            Content::Unknown => None,
            Content::Function(_) => Some(FUNCTION),
            Content::Object(record) => {
                let place = self.records.get(record)?.place;
                let seal = u32::from(self.heap.is_sealed(number));
                self.data.checked_add(place.descriptor)?.checked_add(seal)
            }
        }
    }

    /// The size of a block that is there.
    fn size(&self, number: u32) -> Option<u32> {
        match self.heap.kind(number) {
            None => None,
            Some(_) => Some(self.heap.size(number)),
        }
    }

    /// A block whose cell ends at this address.
    fn block(&self, number: u32, content: Content, end: u32) -> Option<StaticBlock> {
        let size = self.size(number)?;
        Some(StaticBlock {
            number,
            content,
            desc: self.desc(number, content)?,
            size,
            base: base_of(self.heap, number)?,
            cell: end.checked_sub(class_of(size)?)?,
        })
    }
}

/// The number of the block that has so many others before it.
fn number_behind(index: usize) -> Option<u32> {
    u32::try_from(index).ok()?.checked_add(1)
}

impl Statics {
    /// The blocks with these contents, whose cells go downward from the end of the region. Refused with `Misfit` where a number names
    /// nothing, or there is no address left.
    pub fn of(alloc: Global, blocks: Blocks, contents: &Contents) -> Result<Statics, AsmNo> {
        let mut statics = Statics {
            blocks: Vec::new(alloc),
            bottom: REGION + REGION_SIZE,
        };
        for (index, content) in contents.as_slice().iter().enumerate() {
            statics.add(blocks, index, *content)?;
        }
        Ok(statics)
    }

    /// Adds the block that has so many others before it.
    fn add(&mut self, blocks: Blocks, index: usize, content: Content) -> Result<(), AsmNo> {
        let Some(number) = number_behind(index) else {
            return Err(AsmNo::Misfit);
        };
        let Some(block) = blocks.block(number, content, self.bottom) else {
            return Err(AsmNo::Misfit);
        };
        self.blocks.push(block)?;
        self.bottom = block.cell;
        Ok(())
    }

    /// The headers, in order.
    pub fn headers(&self, alloc: Global) -> Result<Vec<u8>, AsmNo> {
        let mut bytes = Vec::new(alloc);
        for block in self.blocks.as_slice() {
            let header = [block.desc, block.size, block.base, block.cell];
            push_words(&mut bytes, &header)?;
        }
        Ok(bytes)
    }

    /// The cells, in order of addresses, so that of the last block is first.
    pub fn cells(
        &self,
        alloc: Global,
        heap: &Heap,
        records: &ShapeRecords,
    ) -> Result<Vec<u8>, AsmNo> {
        let mut bytes = Vec::new(alloc);
        for block in self.blocks.iter().rev() {
            push_cell(alloc, &mut bytes, heap, records, block)?;
        }
        Ok(bytes)
    }
}

/// Adds the cell of a function: the address of its code, and zeros.
fn push_function(bytes: &mut Vec<u8>, address: u32) -> Result<(), AsmNo> {
    push_words(bytes, &[address])?;
    push_zeros(bytes, 12)
}

/// Adds the cell of an object whose shape has this record.
fn push_object(
    alloc: Global,
    bytes: &mut Vec<u8>,
    heap: &Heap,
    records: &ShapeRecords,
    block: &StaticBlock,
    record: u32,
) -> Result<(), AsmNo> {
    let Some(known) = records.get(record) else {
        return Err(AsmNo::Misfit);
    };
    let at = Word {
        value: block.base,
        block: block.number,
    };
    let words = object_cell(alloc, heap, &known.shape, at, block.size)?;
    push_words(bytes, words.as_slice())
}

/// Adds the cell of a block.
fn push_cell(
    alloc: Global,
    bytes: &mut Vec<u8>,
    heap: &Heap,
    records: &ShapeRecords,
    block: &StaticBlock,
) -> Result<(), AsmNo> {
    match block.content {
        Content::Unknown => Err(AsmNo::Misfit),
        Content::Function(address) => push_function(bytes, address),
        Content::Object(record) => push_object(alloc, bytes, heap, records, block, record),
    }
}
