//! All blocks that were ever made.

ghost use Rattle.std.specs.Prelude.{◌≡◌, ◌+◌, ◌-◌, ◌^◌, ◌<◌, ◌≤◌, length, Some, None, IfSome, IsTrue, MatchOption};
ghost use Rattle.c_memory.specs.Access.{clear_of, distance, read_of, refused, within, write_of};
ghost use Rattle.c_memory.specs.Blocks.{block_at, killed, sealed_at};
ghost use Rattle.c_memory.specs.Copying.{copy_of};
ghost use Rattle.c_memory.specs.Storage.{next_base, no_blocks, stored_of};
ghost use Rattle.byte_blocks.specs.Asking.{is_made, is_sealed_at, kind_at, lives, HasSizeOfKind};
ghost use Rattle.byte_blocks.specs.Answers.{Copies, Makes, Writes};

use crate::block::Block;
use crate::make_no::MakeNo;
use crate::piece::Stretch;
use crate::sizes::bytes_of;
use crate::tally::Tally;
use c_memory::{BlockKind, CopyNo, Outside, WriteNo};
use fsc_base::{Width, Word};
use std::alloc::Global;
use std::marker::Model;

/// All blocks ever made, and for each class of cells the greatest number of its blocks that were live at once. Contracts
/// see it as that heap. A call says what it costs; where it says nothing, it takes a bounded number of steps, however many
/// blocks there are and however large they are.
#[derive(Debug, Drop)]
pub struct Heap {
    alloc: Global,
    blocks: Vec<Block>,
    tally: Tally,
}

impl Model for Heap {
    ghost use Rattle.c_memory.specs.Blocks.{Heap};
    ghost use Rattle.byte_blocks.specs.Counts.{Counts, IsWithinLimits};

    ghost Value = { Heap };

    ghost view = { λ h. record { blocks = h.blocks.items; greatest = h.tally.greatest } };

    ghost invariant = { λ h. Counts h.blocks.items h.tally × IsWithinLimits h.tally };
}

impl Heap {
    /// A heap without blocks. It takes no memory; later calls take theirs from `alloc`.
    pub fn new(alloc: Global) -> Heap
        ensures { result ≡ no_blocks }
    {
        Heap {
            alloc,
            blocks: Vec::new(alloc),
            tally: Tally::new(),
        }
    }

    /// Makes a block of so many bytes, none of them where it is a function, and gives its number, which is the number of
    /// blocks now. It is alive, with zero bytes and no bases. Refused, with nothing changed, with `Full` exactly where
    /// afterwards more than 2^29 bytes would be stored or the next virtual base would lie behind 2^32 - 2^16, or with
    /// `NoMemory`. It takes about two bytes of memory for each byte of the block, and the time to clear them; beside that
    /// a bounded number of steps on the average, as a vector's `push` does.
    pub fn create(&mut self, size: u32, kind: BlockKind) -> Result<u32, MakeNo>
        requires { HasSizeOfKind size kind }
        ensures { Makes self.old size kind self.new result }
    {
        let tally = self.tally.with_block(size);
        if !tally.is_within_limits() {
            return Err(MakeNo::Full);
        }
        let block = Block::new(self.alloc, self.tally.next_base as u32, size, kind)?;
        self.blocks.push(block)?;
        self.tally = tally;
        Ok(self.blocks.len() as u32)
    }

    /// Ends the life of a live object. It takes no memory.
    pub fn kill(&mut self, block: u32)
        requires { IsTrue (lives self.old block) }
        ensures { self.new ≡ killed self.old block }
    {
        let place = block as usize - 1;
        self.tally.end_block(self.blocks[place].size());
        self.blocks[place].end(self.alloc);
    }

    /// Makes a live object refuse writes from now on. It takes no memory.
    pub fn seal(&mut self, block: u32)
        requires { IsTrue (lives self.old block) }
        ensures { self.new ≡ sealed_at self.old block }
    {
        self.blocks[block as usize - 1].seal();
    }

    /// What the block with a number is. `None` exactly where no live object and no function has that number.
    pub fn kind(&self, block: u32) -> Option<BlockKind>
        ensures { result ≡ kind_at self.now block }
    {
        self.find(block)?.kind()
    }

    /// The size in bytes of a block that was made.
    pub fn size(&self, block: u32) -> u32
        requires { IsTrue (is_made self.now block) }
        ensures { IfSome (block_at self.now block) (λ made. result ≡ made.size) }
    {
        self.made(block).size()
    }

    /// The virtual base of a block that was made.
    pub fn base(&self, block: u32) -> u32
        requires { IsTrue (is_made self.now block) }
        ensures { IfSome (block_at self.now block) (λ made. result ≡ made.base) }
    {
        self.made(block).base()
    }

    /// How many blocks were made.
    pub fn count(&self) -> usize
        ensures { result ≡ length self.now.blocks }
    {
        self.blocks.len()
    }

    /// Whether a block was made under that number and refuses writes.
    pub fn is_sealed(&self, block: u32) -> bool
        ensures { result ≡ is_sealed_at self.now block }
    {
        match self.find(block) {
            None => false,
            Some(block) => block.is_sealed(),
        }
    }

    /// What an access of this width reads: its bytes, the lowest first, and a base where it is a whole word at a multiple
    /// of 4. Refused with the access exactly where its bytes are not all within a live object. It takes no memory.
    #[tactic(auto, unfolding(c_memory::specs::Access::read_of))]
    pub fn read(&self, at: Word, width: Width) -> Result<Word, Outside>
        ensures { result ≡ read_of self.now at width }
    {
        let n = bytes_of(width);
        match self.within(at, n) {
            None => Err(self.refused(at, n)),
            Some(block) => Ok(block.word(block.distance(at.value), n)),
        }
    }

    /// Writes the low bytes of a word, as many as the width says, the lowest first. The word's base is kept where it is
    /// written whole at a multiple of 4; each other word that the bytes touch loses its base. Refused, with nothing
    /// changed, with `Outside` exactly where the bytes are not all within a live object, and with `ReadOnly` exactly where
    /// they are and it is sealed, each with the access. It takes no memory.
    #[tactic(auto, unfolding(c_memory::specs::Access::write_of))]
    pub fn write(&mut self, at: Word, width: Width, what: Word) -> Result<(), WriteNo>
        ensures { Writes (write_of self.old at width what) self.old self.new result }
    {
        let n = bytes_of(width);
        let Some(block) = self.within(at, n) else {
            return Err(WriteNo::Outside(self.refused(at, n)));
        };
        if block.is_sealed() {
            return Err(WriteNo::ReadOnly(self.refused(at, n)));
        }
        let offset = block.distance(at.value);
        self.blocks[at.block as usize - 1].put_word(offset, n, what);
        Ok(())
    }

    /// Clears `n` bytes, more than none: they are zero, and each word that they touch loses its base. Refused as a write of
    /// so many bytes is. It takes no memory, and a number of steps that grows as `n` does.
    #[tactic(auto, unfolding(c_memory::specs::Access::clear_of))]
    pub fn clear(&mut self, at: Word, n: u32) -> Result<(), WriteNo>
        requires { 0 < n }
        ensures { Writes (clear_of self.old at n) self.old self.new result }
    {
        let Some(object) = self.within(at, n) else {
            return Err(WriteNo::Outside(self.refused(at, n)));
        };
        if object.is_sealed() {
            return Err(WriteNo::ReadOnly(self.refused(at, n)));
        }
        let offset = object.distance(at.value);
        self.blocks[at.block as usize - 1].put_zeros(offset, n);
        Ok(())
    }

    /// Copies `n` bytes, and the bases of the words that are copied whole from a multiple of 4 to a multiple of 4; each
    /// other word that the bytes touch loses its base. All is read before any is written, so the two may overlap. No bytes
    /// are copied from anywhere to anywhere. Refused, with nothing changed: with `Outside` exactly where the source's bytes
    /// are not all within a live object, or else the target's are not, and with `ReadOnly` exactly where both are and the
    /// target is sealed, each with that word's access; or with `NoMemory`. It takes about two bytes of memory for each
    /// byte, which it gives back, and a number of steps that grows as `n` does.
    #[tactic(auto, unfolding(c_memory::specs::Copying::copy_of))]
    pub fn copy(&mut self, to: Word, from: Word, n: u32) -> Result<(), CopyNo>
        ensures { Copies (copy_of self.old to from n) self.old self.new result }
    {
        if n == 0 {
            return Ok(());
        }
        let Some(source) = self.within(from, n) else {
            return Err(CopyNo::Outside(self.refused(from, n)));
        };
        let Some(target) = self.within(to, n) else {
            return Err(CopyNo::Outside(self.refused(to, n)));
        };
        if target.is_sealed() {
            return Err(CopyNo::ReadOnly(self.refused(to, n)));
        }
        let stretch = Stretch {
            to: target.distance(to.value),
            from: source.distance(from.value),
            n,
        };
        let piece = source.piece(self.alloc, stretch)?;
        self.blocks[to.block as usize - 1].put_piece(stretch.to, &piece);
        Ok(())
    }

    /// How many bytes are stored: 16 for each block ever made, and for each class of cells its size times the greatest
    /// number of its blocks that were live at once. It is at most 2^29.
    pub fn stored(&self) -> u64
        ensures stored { result ≡ stored_of self.now }
        ensures limit { result ≤ 2 ^ 29 }
    {
        self.tally.stored
    }

    /// The virtual base of the next block. It is at most 2^32 - 2^16.
    pub fn next_base(&self) -> u64
        ensures base { result ≡ next_base self.now }
        ensures limit { result ≤ 2 ^ 32 - 2 ^ 16 }
    {
        self.tally.next_base
    }

    /// The block with a number, where one was made.
    fn find(&self, number: u32) -> Option<&Block>
        ensures { MatchOption result (block_at self.now number ≡ None) (λ block. block_at self.now number ≡ Some block.now) }
    {
        let number = number as usize;
        if 1 <= number && number <= self.blocks.len() {
            Some(&self.blocks[number - 1])
        } else {
            None
        }
    }

    /// The block with a number, which was made.
    fn made(&self, number: u32) -> &Block
        requires { IsTrue (is_made self.now number) }
        ensures { block_at self.now number ≡ Some result.now }
    {
        match self.find(number) {
            Some(block) => block,
            None => unreachable!(),
        }
    }

    /// The object that `n` bytes from a word on are within.
    #[tactic(auto, unfolding(c_memory::specs::Access::within))]
    fn within(&self, at: Word, n: u32) -> Option<&Block>
        ensures block { MatchOption result (within self.now at n ≡ None) (λ block. within self.now at n ≡ Some block.now) }
        ensures reach { IfSome result (λ block. distance at.value block.now.base + n < 2 ^ 32) }
    {
        let block = self.find(at.block)?;
        if block.is_within(block.distance(at.value), n) {
            Some(block)
        } else {
            None
        }
    }

    /// The access that is refused there.
    fn refused(&self, at: Word, n: u32) -> Outside
        ensures { result ≡ refused self.now at n }
    {
        let offset = match self.find(at.block) {
            None => at.value,
            Some(block) => block.distance(at.value),
        };
        Outside {
            block: at.block,
            offset,
            width: n,
        }
    }
}
