//! Memory.

use crate::moment::Moment;
use crate::stop::Stop;
use byte_blocks::MakeNo;
use c_memory::{BlockKind, CopyNo, Outside, WriteNo};
use fsc_base::{End, Width, Word};

/// The end by an access that is not within.
fn outside(at: Outside) -> Stop {
    Stop::Ended(End::Access {
        block: at.block,
        offset: at.offset,
        width: at.width,
    })
}

/// The end by a write to a sealed object.
fn read_only(at: Outside) -> Stop {
    Stop::Ended(End::ReadOnly {
        block: at.block,
        offset: at.offset,
        width: at.width,
    })
}

fn write_stop(refusal: WriteNo) -> Stop {
    match refusal {
        WriteNo::Outside(at) => outside(at),
        WriteNo::ReadOnly(at) => read_only(at),
    }
}

fn copy_stop(refusal: CopyNo) -> Stop {
    match refusal {
        CopyNo::Outside(at) => outside(at),
        CopyNo::ReadOnly(at) => read_only(at),
        CopyNo::NoMemory => Stop::NoMemory,
    }
}

impl Moment {
    // ---- addresses

    /// The address of a block that is alive.
    pub fn address(&self, block: u32) -> Result<Word, Stop> {
        match self.heap.kind(block) {
            Some(_) => Ok(Word {
                value: self.heap.base(block),
                block,
            }),
            None => Err(Stop::Misfit),
        }
    }

    /// How far a word lies behind the virtual base of its block; without one it is its value.
    pub fn offset(&self, at: Word) -> u32 {
        match self.heap.kind(at.block) {
            Some(_) => at.value.wrapping_sub(self.heap.base(at.block)),
            None => self.dead_offset(at),
        }
    }

    /// The same where the block is not alive: a read there is refused, with the offset.
    fn dead_offset(&self, at: Word) -> u32 {
        match self.heap.read(at, Width::One) {
            Ok(_) => at.value,
            Err(refusal) => refusal.offset,
        }
    }

    /// The address of an entry block of the activation.
    pub fn entry_address(&self, entry: u32) -> Result<Word, Stop> {
        let Some(at) = self.activation.blocks.checked_add(entry as usize) else {
            return Err(Stop::Misfit);
        };
        match self.blocks.get(at) {
            Some(block) => self.address(*block),
            None => Err(Stop::Misfit),
        }
    }

    /// The address of the block of the activation's extra words; null in a function that is not variadic.
    pub fn extra_address(&self) -> Result<Word, Stop> {
        match self.activation.extra {
            0 => Ok(Word { value: 0, block: 0 }),
            block => self.address(block),
        }
    }

    /// What a block is, unless it is a dead object.
    pub fn kind(&self, block: u32) -> Option<BlockKind> {
        self.heap.kind(block)
    }

    /// The size of a block that is alive.
    pub fn size(&self, block: u32) -> Result<u32, Stop> {
        match self.heap.kind(block) {
            Some(_) => Ok(self.heap.size(block)),
            None => Err(Stop::Misfit),
        }
    }

    // ---- accesses

    /// What an access of this width reads. Ended where it is not within.
    pub fn read(&self, at: Word, width: Width) -> Result<Word, Stop> {
        match self.heap.read(at, width) {
            Ok(word) => Ok(word),
            Err(refusal) => Err(outside(refusal)),
        }
    }

    /// Writes the low bytes of a word. Ended where the access is not within, or the object is sealed.
    pub fn write(&mut self, at: Word, width: Width, word: Word) -> Result<(), Stop> {
        match self.heap.write(at, width, word) {
            Ok(()) => Ok(()),
            Err(refusal) => Err(write_stop(refusal)),
        }
    }

    /// Clears so many bytes, as a write.
    pub fn clear(&mut self, at: Word, n: u32) -> Result<(), Stop> {
        if n == 0 {
            return Err(Stop::Misfit);
        }
        match self.heap.clear(at, n) {
            Ok(()) => Ok(()),
            Err(refusal) => Err(write_stop(refusal)),
        }
    }

    /// Copies so many bytes with their bases.
    pub fn copy(&mut self, to: Word, from: Word, n: u32) -> Result<(), Stop> {
        match self.heap.copy(to, from, n) {
            Ok(()) => Ok(()),
            Err(refusal) => Err(copy_stop(refusal)),
        }
    }

    // ---- blocks

    /// Makes an object that the program asks for. None where it does not fit.
    pub fn allocate(&mut self, size: u32) -> Result<Option<Word>, Stop> {
        match self.heap.create(size, BlockKind::Alloc) {
            Ok(block) => Ok(Some(self.address(block)?)),
            Err(MakeNo::Full) => Ok(None),
            Err(MakeNo::NoMemory) => Err(Stop::NoMemory),
        }
    }

    /// Makes an object for the entry of a function. Ended where it does not fit.
    fn make(&mut self, size: u32) -> Result<u32, Stop> {
        match self.heap.create(size, BlockKind::Entry) {
            Ok(block) => Ok(block),
            Err(MakeNo::Full) => Err(Stop::Ended(End::Blocks)),
            Err(MakeNo::NoMemory) => Err(Stop::NoMemory),
        }
    }

    /// Makes the next entry block of the activation.
    pub fn make_entry(&mut self, size: u32) -> Result<(), Stop> {
        let block = self.make(size)?;
        self.blocks.push(block)?;
        Ok(())
    }

    /// Makes the block of the extra words of the activation, and puts them in, one after the other. Gives how many there are.
    pub fn make_extra(&mut self) -> Result<u32, Stop> {
        let Ok(count) = u32::try_from(self.extra.len()) else {
            return Err(Stop::Misfit);
        };
        let Some(size) = count.checked_mul(4) else {
            return Err(Stop::Misfit);
        };
        let block = self.make(size)?;
        let at = self.address(block)?;
        self.activation.extra = block;
        self.put_extra(at)?;
        Ok(count)
    }

    fn put_extra(&mut self, first: Word) -> Result<(), Stop> {
        let mut at = first;
        'words: for word in &self.extra {
            match self.heap.write(at, Width::Four, *word) {
                Ok(()) => {}
                Err(refusal) => return Err(write_stop(refusal)),
            }
            at.value = at.value.wrapping_add(4);
        }
        Ok(())
    }

    /// Ends the life of an object.
    pub fn kill(&mut self, block: u32) -> Result<(), Stop> {
        match self.heap.kind(block) {
            Some(BlockKind::Static) | Some(BlockKind::Entry) | Some(BlockKind::Alloc) => {
                self.heap.kill(block);
                Ok(())
            }
            Some(BlockKind::Function) | None => Err(Stop::Misfit),
        }
    }
}
