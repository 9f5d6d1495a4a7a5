//! Blocks in cells: their headers, shapes and accesses, and which accesses are away.

ghost use Rattle.std.specs.Prelude.{◌<◌, ◌≤◌, IsTrue};
ghost use Rattle.access_methods.specs.Accesses.{IsDecidedAt, IsUndecidedAt};

use crate::stop::{Stop, copy_stop, outside_end, read_only_end, write_stop};
use access_methods::{copy, read, write};
use c_memory::Outside;
use cell_store::CellStore;
use fsc_base::{End, NoMemory, Width, Word};
use lazy_type::decide;
use std::alloc::Global;
use type_desc::Shapes;

/// The descriptor of an object that is not decided yet.
pub(crate) const UNDECIDED: u32 = 2;

/// The descriptor of a function.
pub(crate) const FUNCTION: u32 = 1;

/// A word without a base.
pub(crate) fn plain(value: u32) -> Word {
    Word { value, block: 0 }
}

/// How many bytes an access of a width touches.
fn bytes_of(width: Width) -> u32
    ensures some { 0 < result }
    ensures few { result ≤ 4 }
{
    match width {
        Width::One => 1,
        Width::Two => 2,
        Width::Four => 4,
    }
}

/// A word that is so many bytes further on.
pub(crate) fn moved(at: Word, offset: u32) -> Word {
    Word {
        value: at.value.wrapping_add(offset),
        block: at.block,
    }
}

/// A shape of a type, by its descriptor and the number of its words.
#[derive(Clone, Copy)]
pub(crate) struct ShapeRef {
    pub desc: u32,
    pub words: u32,
}

/// An access through a pointer: the word, how many bytes, how many bytes of members lie between, the shape of the type that is
/// pointed to, and whether it is a write.
#[derive(Clone, Copy)]
pub(crate) struct Reach {
    pub at: Word,
    pub width: Width,
    pub member: u32,
    pub shape: ShapeRef,
    pub is_write: bool,
}

/// Where some bytes lie in a live object.
#[derive(Clone, Copy)]
struct Within {
    offset: u32,
    size: u32,
    desc: u32,
}

/// The blocks of a run, the shapes of types, and how many accesses were away.
#[derive(Drop)]
pub(crate) struct Memory {
    alloc: Global,
    store: CellStore,
    shapes: Shapes,
    /// By the number of a block: whether the program asked for it.
    asked: Vec<bool>,
    away: u64,
}

impl Memory {
    /// No blocks, in a region of so many bytes, and these shapes.
    pub fn new(alloc: Global, store: CellStore, shapes: Shapes) -> Result<Memory, NoMemory> {
        let mut asked = Vec::new(alloc);
        asked.push(false)?;
        Ok(Memory {
            alloc,
            store,
            shapes,
            asked,
            away: 0,
        })
    }

    /// How many accesses were away so far.
    pub fn away(&self) -> u64 {
        self.away
    }

    /// How many blocks were made.
    pub fn made(&self) -> u32 {
        self.store.made()
    }

    /// The blocks.
    pub fn store(&self) -> &CellStore {
        &self.store
    }

    /// The shapes.
    pub fn shapes(&self) -> &Shapes {
        &self.shapes
    }

    /// The address of a block; null where none has that number.
    pub fn address(&self, block: u32) -> Word {
        if self.store.is_made(block) {
            Word {
                value: self.store.header(block).base,
                block,
            }
        } else {
            plain(0)
        }
    }

    /// The offset of a word in the block that it is based on; its value where there is none.
    pub fn offset(&self, at: Word) -> u32 {
        if self.store.is_made(at.block) {
            at.value.wrapping_sub(self.store.header(at.block).base)
        } else {
            at.value
        }
    }

    /// The access that is refused there.
    fn refused(&self, at: Word, n: u32) -> Outside {
        Outside {
            block: at.block,
            offset: self.offset(at),
            width: n,
        }
    }

    /// Where so many bytes from a word on lie in a live object; None where they don't.
    fn within(&self, at: Word, n: u32) -> Option<Within> {
        if !self.store.is_live(at.block) {
            return None;
        }
        let header = self.store.header(at.block);
        let offset = at.value.wrapping_sub(header.base);
        if u64::from(offset) + u64::from(n) <= u64::from(header.size) {
            Some(Within {
                offset,
                size: header.size,
                desc: header.desc,
            })
        } else {
            None
        }
    }

    /// Makes a block of so many bytes; None where it doesn't fit. The descriptor is 1 for a function, which has no bytes.
    pub fn make(&mut self, size: u32, desc: u32, is_asked: bool) -> Result<Option<u32>, Stop> {
        if desc == 0 || (desc == FUNCTION && size != 0) {
            return Err(Stop::Misfit);
        }
        self.asked.reserve(1)?;
        match self.store.make(size, desc) {
            Ok(block) => {
                self.asked.push(is_asked)?;
                Ok(Some(block))
            }
            Err(_full) => Ok(None),
        }
    }

    /// Ends the life of a live object.
    pub fn kill(&mut self, block: u32) -> Result<(), Stop> {
        if !self.store.is_live(block) {
            return Err(Stop::Misfit);
        }
        self.store.drop_cell(block);
        Ok(())
    }

    /// Makes a decided live object refuse writes.
    pub fn seal(&mut self, block: u32) -> Result<(), Stop> {
        if !self.store.is_live(block) {
            return Err(Stop::Misfit);
        }
        let desc = self.store.header(block).desc;
        if desc % 4 != 0 || desc < 4 {
            return Err(Stop::Misfit);
        }
        self.store.seal(block);
        Ok(())
    }

    /// Decides a block, where it is a live object that is not decided yet.
    pub fn decide(&mut self, block: u32, desc: u32) -> Result<(), Stop> {
        if desc % 4 != 0 || desc < 4 {
            return Err(Stop::Misfit);
        }
        if self.store.is_live(block) {
            decide(&mut self.store, block, desc);
        }
        Ok(())
    }

    /// Whether an access is near: its block is live and decided as the type's shape, the access is allowed and aligned, and the
    /// pointer names the first byte of a repetition of the shape; where the shape has one word each place will do.
    fn is_near(&self, reach: Reach) -> bool {
        let n = bytes_of(reach.width);
        match self.within(reach.at, n) {
            None => false,
            Some(place) => {
                is_decided_as(place.desc, reach.shape.desc)
                    && !(reach.is_write && is_sealed(place.desc))
                    && place.offset % n == 0
                    && is_rooted(place, reach.member, reach.shape.words)
            }
        }
    }

    /// What an access does before it is made, also one that fails: it decides its block, and it is counted where it is away.
    pub fn watch(&mut self, reach: Reach) -> Result<(), Stop> {
        self.decide(reach.at.block, reach.shape.desc)?;
        if !self.is_near(reach) {
            self.away = self.away.saturating_add(1);
        }
        Ok(())
    }

    /// A read.
    pub fn read(&self, at: Word, width: Width) -> Result<Word, Stop> {
        match read(&self.store, &self.shapes, at, width) {
            Ok(word) => Ok(word),
            Err(outside) => Err(Stop::Ended(outside_end(outside))),
        }
    }

    /// Whether a block is no live object that is not decided yet.
    fn is_settled(&self, block: u32) -> bool
        ensures { IsTrue result → IsDecidedAt self.now.store block }
    {
        !self.store.is_live(block) || self.store.header(block).desc != UNDECIDED
    }

    /// A write. Its block is decided, where it is a live object.
    pub fn write(&mut self, at: Word, width: Width, what: Word) -> Result<(), Stop> {
        if !self.is_settled(at.block) {
            return Err(Stop::Misfit);
        }
        match write(&mut self.store, &self.shapes, at, width, what) {
            Ok(()) => Ok(()),
            Err(no) => Err(write_stop(no)),
        }
    }

    /// Whether a block is a live object that is not decided yet.
    fn is_undecided(&self, block: u32) -> bool
        ensures { IsTrue result → IsUndecidedAt self.now.store block }
    {
        self.store.is_live(block) && self.store.header(block).desc == UNDECIDED
    }

    /// What a copy decides, where it isn't refused: the target's block as its source's is.
    fn decide_copy(&mut self, to: Word, from: Word, n: u32) -> Result<(), Stop> {
        let Some(source) = self.within(from, n) else {
            return Ok(());
        };
        let Some(target) = self.within(to, n) else {
            return Ok(());
        };
        if is_sealed(target.desc) || source.desc == UNDECIDED {
            return Ok(());
        }
        self.decide(to.block, source.desc / 4 * 4)
    }

    /// A copy of so many bytes. One of none tests and decides nothing.
    pub fn copy(&mut self, to: Word, from: Word, n: u32) -> Result<(), Stop> {
        if n == 0 {
            return Ok(());
        }
        self.decide_copy(to, from, n)?;
        if self.is_settled(to.block) {
            self.copy_settled(to, from, n)
        } else if self.is_undecided(to.block) && self.is_undecided(from.block) {
            self.copy_undecided(to, from, n)
        } else {
            Err(self.refuse_copy(to, from, n))
        }
    }

    /// A copy to a block that is decided, or that is no live object.
    fn copy_settled(&mut self, to: Word, from: Word, n: u32) -> Result<(), Stop>
        requires { IsDecidedAt self.old.store to.block }
    {
        match copy(self.alloc, &mut self.store, &self.shapes, to, from, n) {
            Ok(()) => Ok(()),
            Err(no) => Err(copy_stop(no)),
        }
    }

    /// A copy between blocks that are not decided.
    fn copy_undecided(&mut self, to: Word, from: Word, n: u32) -> Result<(), Stop>
        requires to { IsUndecidedAt self.old.store to.block }
        requires from { IsUndecidedAt self.old.store from.block }
    {
        match copy(self.alloc, &mut self.store, &self.shapes, to, from, n) {
            Ok(()) => Ok(()),
            Err(no) => Err(copy_stop(no)),
        }
    }

    /// A copy to a block that is not decided, from one that is or from no live object: as it decided nothing, it is refused.
    fn refuse_copy(&self, to: Word, from: Word, n: u32) -> Stop {
        let at = if self.within(from, n).is_none() {
            from
        } else {
            to
        };
        Stop::Ended(outside_end(self.refused(at, n)))
    }

    /// Writes so many zero bytes, as one write. Without any nothing is tested.
    pub fn clear(&mut self, at: Word, n: u32) -> Result<(), Stop> {
        if n == 0 {
            return Ok(());
        }
        match self.within(at, n) {
            None => Err(Stop::Ended(outside_end(self.refused(at, n)))),
            Some(place) => {
                if is_sealed(place.desc) {
                    Err(Stop::Ended(read_only_end(self.refused(at, n))))
                } else {
                    self.put_zeros(at, place, n)
                }
            }
        }
    }

    /// Zero bytes in a live object; one that is not decided has no others.
    fn put_zeros(&mut self, at: Word, place: Within, n: u32) -> Result<(), Stop> {
        if place.desc == UNDECIDED {
            return Ok(());
        }
        let to_word = place.offset.wrapping_neg() % 4;
        let front = if to_word < n { to_word } else { n };
        let words = (n - front) / 4;
        let back = (n - front) % 4;
        self.put_zero_bytes(at, front)?;
        self.put_zero_words(moved(at, front), words)?;
        self.put_zero_bytes(moved(at, front + 4 * words), back)
    }

    /// So many zero bytes.
    fn put_zero_bytes(&mut self, at: Word, count: u32) -> Result<(), Stop> {
        for index in 0..count {
            self.write(moved(at, index), Width::One, plain(0))?;
        }
        Ok(())
    }

    /// So many zero words, from a multiple of 4 on.
    fn put_zero_words(&mut self, at: Word, count: u32) -> Result<(), Stop> {
        for index in 0..count {
            self.write(moved(at, index.wrapping_mul(4)), Width::Four, plain(0))?;
        }
        Ok(())
    }

    /// Whether a word is the address of a live block that the program asked for.
    fn is_asked(&self, at: Word) -> bool {
        self.store.is_live(at.block)
            && self.offset(at) == 0
            && self.asked.get(at.block as usize).copied().unwrap_or(false)
    }

    /// A live block that the program asked for, by its address; else the run ends by an access without a width.
    pub fn asked_block(&self, at: Word) -> Result<u32, Stop> {
        if self.is_asked(at) {
            Ok(at.block)
        } else {
            Err(Stop::Ended(outside_end(self.refused(at, 0))))
        }
    }

    /// The size of a live object.
    pub fn size(&self, block: u32) -> Result<u32, Stop> {
        if self.store.is_live(block) {
            Ok(self.store.header(block).size)
        } else {
            Err(Stop::Misfit)
        }
    }
}

/// Whether a live object with this descriptor refuses writes.
fn is_sealed(desc: u32) -> bool {
    desc % 4 == 1
}

/// Whether a live object with this descriptor, sealed or not, is decided as the shape with another.
fn is_decided_as(desc: u32, shape: u32) -> bool {
    desc != UNDECIDED && desc / 4 * 4 == shape
}

/// Whether the pointer behind an access names the first byte of a repetition of a shape of so many words, or the shape has one word.
fn is_rooted(place: Within, member: u32, words: u32) -> bool {
    if words == 1 {
        return true;
    }
    let root = place.offset.wrapping_sub(member);
    let period = 4 * u64::from(words);
    root < place.size && period > 0 && u64::from(root) % period == 0
}
