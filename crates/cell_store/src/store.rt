//! The store of cells.

ghost use Rattle.std.specs.Prelude.{◌≡◌, ℕ, ◌+◌, ◌*◌, ◌/◌, ◌%◌, ◌^◌, ◌<◌, ◌≤◌, ◌↔◌, length, replicate, slice_index_or, IfOk, IsOk, IsTrue, MatchResult};
ghost use Rattle.c_memory.specs.Blocks.{Heap, words_of};
ghost use Rattle.c_memory.specs.Storage.{FitsIn};
ghost use Rattle.c_memory.specs.declared.kind.BlockKind.{BlockKind};
ghost use Rattle.cell_store.specs.Held.{HoldsCreated, HoldsDecided, HoldsKilled, HoldsNone, HoldsSealed};
ghost use Rattle.cell_store.specs.Layouts.{Layouts};
ghost use Rattle.cell_store.specs.Making.{without_cell, Clears, Makes, Puts, StoreFits};
ghost use Rattle.cell_store.specs.Store.{cell_place, header_in, with_cell_word, with_desc, Holds, IsLiveIn, IsMade, IsOrderly};

use crate::cell_pool::CellPool;
use crate::size::{class_of, span, words_of};
use block_header::{Header, read_header, write_header};
use c_memory::{FIRST_BASE, HEADER_BYTES, MOST_BASE};
use fsc_base::NoMemory;
use std::alloc::Global;
use std::marker::Model;

/// A creation does not fit: its header and its cell do not fit the region, or the next virtual base is out of reach.
#[derive(Clone, Copy, Debug, PartialEq, Eq)]
pub struct Full;

/// Headers and cells of blocks in one region of words, which begins at address 0. Headers stand at its front in order of
/// number. Cells are taken from its end downward, and used again for blocks of the same class.
#[derive(Debug, Drop)]
pub struct CellStore {
    words: Vec<u32>,
    made: u32,
    pool: CellPool,
    next_base: u64,
}

impl Model for CellStore {
    ghost use Rattle.cell_store.specs.Store.{Store};
    ghost use Rattle.cell_store.specs.Kept.{Kept};

    ghost Value = { Store };

    ghost view = { λ s. record { words = s.words.items; made = s.made; greatest = s.pool.taken } };

    ghost invariant = { λ s. Kept s.words.items s.made s.pool s.next_base };
}

impl CellStore {
    /// No blocks, in a region of so many bytes, rounded down to a multiple of 16. Its words are zero. Refused only for want
    /// of memory.
    pub fn new(alloc: Global, bytes: u32) -> Result<CellStore, NoMemory>
        ensures words { IfOk result (λ store. store.words ≡ replicate (4 * (bytes / 16)) 0) }
        ensures made { IfOk result (λ store. store.made ≡ 0) }
        ensures greatest { IfOk result (λ store. store.greatest ≡ replicate 30 0) }
        ensures heaps { IfOk result (λ store. HoldsNone store) }
    {
        let region = bytes / 16 * 16;
        let count = (region / 4) as usize;
        let mut words = Vec::with_capacity(alloc, count)?;
        words.resize(count, 0)?;
        Ok(CellStore {
            words,
            made: 0,
            pool: CellPool::new(alloc, region)?,
            next_base: FIRST_BASE,
        })
    }

    /// The header of a block that was made.
    pub fn header(&self, block: u32) -> Header
        requires { IsMade self.now block }
        ensures desc { result.desc ≡ (header_in self.now block).desc }
        ensures size { result.size ≡ (header_in self.now block).size }
        ensures base { result.base ≡ (header_in self.now block).base }
        ensures cell { result.cell ≡ (header_in self.now block).cell }
    {
        read_header(self.words.as_slice(), block)
    }

    /// All words of the region. The cells of live objects lie in it behind all headers, and none overlaps another.
    pub fn words(&self) -> &[u32]
        ensures value { result.now ≡ self.now.words }
        ensures orderly { IsOrderly self.now }
    {
        self.words.as_slice()
    }

    /// How many blocks were made.
    pub fn made(&self) -> u32
        ensures { result ≡ self.now.made }
    {
        self.made
    }

    /// Whether a block of this number was made. Blocks count from 1.
    pub fn is_made(&self, block: u32) -> bool
        ensures { IsTrue result ↔ IsMade self.now block }
    {
        1 <= block && block <= self.made
    }

    /// Whether a block of this number was made and is a live object.
    pub fn is_live(&self, block: u32) -> bool
        ensures { IsTrue result ↔ IsLiveIn self.now block }
    {
        self.is_made(block) && self.header(block).desc >= 2
    }

    /// Word `i` of the cell of a live object. The cell has two words for each word of the object.
    pub fn word(&self, block: u32, i: u32) -> u32
        requires live { IsLiveIn self.now block }
        requires within { i < 2 * words_of (header_in self.now block).size }
        ensures { result ≡ slice_index_or self.now.words (cell_place self.now block i) 0 }
    {
        let cell = self.header(block).cell;
        self.words[(cell / 4) as usize + i as usize]
    }

    /// Makes `value` word `i` of the cell of a live object. All headers stay.
    pub fn set_word(&mut self, block: u32, i: u32, value: u32)
        requires live { IsLiveIn self.old block }
        requires within { i < 2 * words_of (header_in self.old block).size }
        ensures store { self.new ≡ with_cell_word self.old block i value }
        ensures headers { (b : ℕ) → IsMade self.old b → header_in self.new b ≡ header_in self.old b }
    {
        let cell = self.header(block).cell;
        self.words[(cell / 4) as usize + i as usize] = value;
    }

    /// Gives a live object this descriptor, which is at least 2.
    pub fn set_desc(&mut self, block: u32, desc: u32)
        requires live { IsLiveIn self.old block }
        requires object { 2 ≤ desc }
        ensures store { self.new ≡ with_desc self.old block desc }
        ensures heaps { HoldsDecided self.old block desc self.new }
    {
        self.words[4 * (block as usize - 1)] = desc;
    }

    /// Seals a live object whose descriptor stands for its layout, a multiple of 4 and at least 4: the descriptor becomes
    /// one more.
    pub fn seal(&mut self, block: u32)
        requires live { IsLiveIn self.old block }
        requires multiple { (header_in self.old block).desc % 4 ≡ 0 }
        requires object { 4 ≤ (header_in self.old block).desc }
        ensures store { self.new ≡ with_desc self.old block ((header_in self.old block).desc + 1) }
        ensures heaps { HoldsSealed self.old block self.new }
    {
        let desc = self.header(block).desc;
        self.set_desc(block, desc + 1);
    }

    /// Whether the creation of a block of so many bytes fits: what is stored fits the region, and the next virtual base is
    /// at most 2^32 - 2^16.
    fn fits(&self, size: u32) -> bool
        ensures { IsTrue result ↔ StoreFits self.now size }
    {
        let region = 4 * self.words.len() as u64;
        let headers = HEADER_BYTES * (u64::from(self.made) + 1);
        let cells = region - u64::from(self.pool.bottom()) + self.pool.cost(class_of(size));
        headers + cells <= region && self.next_base + span(size) <= MOST_BASE
    }

    /// Makes a block of so many bytes with this descriptor, whose creation fits. Its number.
    fn place(&mut self, size: u32, desc: u32) -> u32
        requires some { 1 ≤ desc }
        requires fits { StoreFits self.old size }
        ensures { Makes self.old size desc result self.new }
    {
        let cell = self.pool.take(class_of(size));
        self.made += 1;
        let header = Header {
            desc,
            size,
            base: self.next_base as u32,
            cell,
        };
        put_block(self.words.as_mut_slice(), self.made, header);
        self.next_base += span(size);
        self.made
    }

    /// Makes a block of so many bytes with this descriptor: 1 for a function, whose size is 0, and else an object of zero
    /// words. Its number, the next. Refused with `Full`, and nothing changed, exactly where the creation does not fit the
    /// region.
    pub fn make(&mut self, size: u32, desc: u32) -> Result<u32, Full>
        requires some { 1 ≤ desc }
        requires function { desc ≡ 1 → size ≡ 0 }
        ensures heaps { IfOk result (λ _. HoldsCreated self.old size desc self.new) }
        ensures fits { (heap : Heap) (layouts : Layouts) (maker : BlockKind) → Holds self.old heap layouts →
            (IsOk result ↔ FitsIn (4 * length self.old.words) heap size maker) }
        ensures store { MatchResult result
            (λ block. StoreFits self.old size × Makes self.old size desc block self.new)
            (λ _. ¬ StoreFits self.old size × (self.new ≡ self.old)) }
    {
        if !self.fits(size) {
            return Err(Full);
        }
        Ok(self.place(size, desc))
    }

    /// Ends the life of a live object: its descriptor and its cell become 0, its size and base stay, and its cell can be
    /// used again.
    pub fn drop_cell(&mut self, block: u32)
        requires { IsLiveIn self.old block }
        ensures store { self.new ≡ without_cell self.old block }
        ensures heaps { HoldsKilled self.old block self.new }
    {
        let header = self.header(block);
        let first = 4 * (block as usize - 1);
        self.words[first] = 0;
        self.words[first + 3] = 0;
        self.pool.put(class_of(header.size), header.cell);
    }
}

/// Gives a block its header, and zero words in its cell, which lies behind it.
fn put_block(words: &mut [u32], block: u32, header: Header)
    requires from_one { 1 ≤ block }
    requires behind { 4 * block ≤ header.cell / 4 }
    requires within { header.cell / 4 + 2 * words_of header.size ≤ length words.old }
    ensures { Puts words.old block header words.new }
{
    let count = 2 * words_of(header.size) as usize;
    clear(words, (header.cell / 4) as usize, count);
    write_header(words, block, header);
}

/// Makes `count` words from the index `from` on zero.
fn clear(words: &mut [u32], from: usize, count: usize)
    requires { from + count ≤ length words.old }
    ensures { Clears words.old from count words.new }
{
    words[from..from + count].fill(0);
}
