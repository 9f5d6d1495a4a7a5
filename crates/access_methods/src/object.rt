//! A live object and the words of its cell.

ghost use Rattle.std.specs.Prelude.{◌≡◌, ◌≢◌, ℕ, ◌+◌, ◌*◌, ◌/◌, ◌%◌, ◌^◌, ◌<◌, ◌≤◌, length, replicate, slice_index_or, take};
ghost use Rattle.c_memory.specs.Access.{bytes_of, touched, with_word, word_in};
ghost use Rattle.c_memory.specs.Blocks.{Block, words_of};
ghost use Rattle.c_memory.specs.Bytes.{little_endian_bytes};
ghost use Rattle.access_methods.specs.Forms.{layout_in};
ghost use Rattle.access_methods.specs.Objects.{Turns, with_base_at, with_bases_at, with_byte, with_both, with_bytes_at};
ghost use Rattle.access_methods.specs.Cells.{IsObjectIn, Lays, base_in, value_in};

use crate::form::Chosen;
use crate::layout::Layout;
use crate::locate::byte_count;
use cell_store::CellStore;
use fsc_base::{Width, Word};

/// A live object, with its size in bytes and the layout of its cell.
#[derive(Clone, Copy, Debug)]
pub(crate) struct Object<'a> {
    pub block: u32,
    pub size: u32,
    pub layout: Chosen<'a>,
}

impl Object<'_> {
    /// How many words it has.
    fn total(&self) -> u32
        ensures count { result ≡ words_of self.now.size }
        ensures bounded { result ≤ 2 ^ 30 }
    {
        words_of(self.size)
    }

    /// The value of its word `w`.
    fn value(&self, store: &CellStore, w: u32) -> u32
        requires stands { IsObjectIn store.now self.now }
        requires within { w < words_of self.now.size }
        ensures { result ≡ value_in store.now self.now w }
    {
        store.word(self.block, self.layout.value_at(self.total(), w))
    }

    /// The base of its word `w`.
    pub fn base(&self, store: &CellStore, w: u32) -> u32
        requires stands { IsObjectIn store.now self.now }
        requires within { w < words_of self.now.size }
        ensures { result ≡ base_in store.now self.now w }
    {
        store.word(self.block, self.layout.base_at(self.total(), w))
    }

    /// The byte at an offset.
    pub fn byte(&self, store: &CellStore, offset: u32) -> u8
        requires stands { IsObjectIn store.now self.now }
        requires within { offset < self.now.size }
        ensures { (x : Block) → Lays store.now self.now x → result ≡ slice_index_or x.bytes offset 0 }
    {
        self.value(store, offset / 4).to_le_bytes()[(offset % 4) as usize]
    }

    /// Its word `w`, where it has all four bytes, with its base.
    fn word(&self, store: &CellStore, w: u32) -> Word
        requires stands { IsObjectIn store.now self.now }
        requires within { 4 * w + 4 ≤ self.now.size }
        ensures { (x : Block) → Lays store.now self.now x → result ≡ word_in x (4 * w) 4 }
    {
        Word {
            value: self.value(store, w),
            block: self.base(store, w),
        }
    }

    /// The two bytes from an offset on, as a number.
    fn half(&self, store: &CellStore, offset: u32) -> u16
        requires stands { IsObjectIn store.now self.now }
        requires within { offset + 2 ≤ self.now.size }
        ensures { (x : Block) → Lays store.now self.now x → record { value = result; block = 0 } ≡ word_in x offset 2 }
    {
        let low = self.byte(store, offset);
        let high = self.byte(store, offset + 1);
        u16::from_le_bytes([low, high])
    }

    /// The four bytes from an offset on that is no multiple of 4, as a number.
    fn four_bytes(&self, store: &CellStore, offset: u32) -> u32
        requires stands { IsObjectIn store.now self.now }
        requires within { offset + 4 ≤ self.now.size }
        requires unaligned { offset % 4 ≢ 0 }
        ensures { (x : Block) → Lays store.now self.now x → record { value = result; block = 0 } ≡ word_in x offset 4 }
    {
        let first = self.byte(store, offset);
        let second = self.byte(store, offset + 1);
        let third = self.byte(store, offset + 2);
        let fourth = self.byte(store, offset + 3);
        u32::from_le_bytes([first, second, third, fourth])
    }

    /// What is read at an offset. It has a base only where it is a whole word at a multiple of 4.
    pub fn read(&self, store: &CellStore, offset: u32, width: Width) -> Word
        requires stands { IsObjectIn store.now self.now }
        requires within { offset + bytes_of width ≤ self.now.size }
        ensures { (x : Block) → Lays store.now self.now x → result ≡ word_in x offset (bytes_of width) }
    {
        match width {
            Width::One => plain(u32::from(self.byte(store, offset))),
            Width::Two => plain(u32::from(self.half(store, offset))),
            Width::Four => {
                if offset % 4 == 0 {
                    self.word(store, offset / 4)
                } else {
                    plain(self.four_bytes(store, offset))
                }
            }
        }
    }

    /// Writes the value of its word `w`, where it has all four bytes.
    fn set_value(&self, store: &mut CellStore, w: u32, value: u32)
        requires stands { IsObjectIn store.old self.now }
        requires within { 4 * w + 4 ≤ self.now.size }
        ensures stands { IsObjectIn store.new self.now }
        ensures turns { Turns store.old store.new self.now.block (layout_in self.now.layout) (with_bytes_at (4 * w) (little_endian_bytes 4 value)) }
    {
        store.set_word(self.block, self.layout.value_at(self.total(), w), value);
    }

    /// Writes the base of its word `w`.
    pub fn set_base(&self, store: &mut CellStore, w: u32, base: u32)
        requires stands { IsObjectIn store.old self.now }
        requires within { w < words_of self.now.size }
        ensures stands { IsObjectIn store.new self.now }
        ensures turns { Turns store.old store.new self.now.block (layout_in self.now.layout) (with_base_at w base) }
    {
        store.set_word(self.block, self.layout.base_at(self.total(), w), base);
    }

    /// Writes the byte at an offset.
    fn set_byte(&self, store: &mut CellStore, offset: u32, byte: u8)
        requires stands { IsObjectIn store.old self.now }
        requires within { offset < self.now.size }
        ensures stands { IsObjectIn store.new self.now }
        ensures turns { Turns store.old store.new self.now.block (layout_in self.now.layout) (with_byte offset byte) }
    {
        let w = offset / 4;
        let mut bytes = self.value(store, w).to_le_bytes();
        bytes[(offset % 4) as usize] = byte;
        let value = u32::from_le_bytes(bytes);
        store.set_word(self.block, self.layout.value_at(self.total(), w), value);
    }

    /// Writes the first of some bytes from an offset on: a whole word where the offset is a multiple of 4 and the word's
    /// four bytes are there, else one byte. How many it wrote.
    fn set_next(&self, store: &mut CellStore, offset: u32, bytes: &[u8]) -> usize
        requires stands { IsObjectIn store.old self.now }
        requires some { 0 < length bytes.now }
        requires within { offset + length bytes.now ≤ self.now.size }
        ensures stands { IsObjectIn store.new self.now }
        ensures some { 0 < result }
        ensures few { result ≤ length bytes.now }
        ensures turns { Turns store.old store.new self.now.block (layout_in self.now.layout) (with_bytes_at offset (take result bytes.now)) }
    {
        match bytes {
            [a, b, c, d, ..] if offset % 4 == 0 => {
                self.set_value(store, offset / 4, u32::from_le_bytes([*a, *b, *c, *d]));
                4
            }
            [a, ..] => {
                self.set_byte(store, offset, *a);
                1
            }
            [] => 0,
        }
    }

    /// Writes bytes from an offset on.
    pub fn set_bytes(&self, store: &mut CellStore, offset: u32, bytes: &[u8])
        requires stands { IsObjectIn store.old self.now }
        requires within { offset + length bytes.now ≤ self.now.size }
        ensures stands { IsObjectIn store.new self.now }
        ensures turns { Turns store.old store.new self.now.block (layout_in self.now.layout) (with_bytes_at offset bytes.now) }
    {
        let mut done = 0;
        while done < bytes.len() {
            done += self.set_next(store, offset + done as u32, &bytes[done..]);
        }
    }

    /// Writes bases from word `w` on.
    pub fn set_bases(&self, store: &mut CellStore, w: u32, bases: &[u32])
        requires stands { IsObjectIn store.old self.now }
        requires within { w + length bases.now ≤ words_of self.now.size }
        ensures stands { IsObjectIn store.new self.now }
        ensures turns { Turns store.old store.new self.now.block (layout_in self.now.layout) (with_bases_at w bases.now) }
    {
        for (k, base) in bases.iter().enumerate() {
            self.set_base(store, w + k as u32, *base);
        }
    }

    /// Takes the base of each word that `n` bytes from an offset on touch.
    fn clear_bases(&self, store: &mut CellStore, offset: u32, n: u32)
        requires stands { IsObjectIn store.old self.now }
        requires within { offset + n ≤ self.now.size }
        ensures stands { IsObjectIn store.new self.now }
        ensures turns { Turns store.old store.new self.now.block (layout_in self.now.layout) (with_bases_at (offset / 4) (replicate (touched offset n) 0)) }
    {
        for w in offset / 4..words_of(offset + n) {
            self.set_base(store, w, 0);
        }
    }

    /// Writes the lowest bytes of a word at an offset. Its base is kept only where it is a whole word at a multiple of 4.
    pub fn write(&self, store: &mut CellStore, offset: u32, width: Width, what: Word)
        requires stands { IsObjectIn store.old self.now }
        requires within { offset + bytes_of width ≤ self.now.size }
        ensures { Turns store.old store.new self.now.block (layout_in self.now.layout) (λ (x : Block). with_word x offset (bytes_of width) what) }
    {
        let n = byte_count(width);
        self.set_bytes(store, offset, &what.value.to_le_bytes()[..n as usize]);
        if n == 4 && offset % 4 == 0 {
            self.set_base(store, offset / 4, what.block);
        } else {
            self.clear_bases(store, offset, n);
        }
    }

    /// Writes bytes from an offset on, and bases from the word of that offset on.
    pub fn put(&self, store: &mut CellStore, offset: u32, bytes: &[u8], bases: &[u32])
        requires stands { IsObjectIn store.old self.now }
        requires bytes_within { offset + length bytes.now ≤ self.now.size }
        requires bases_within { offset / 4 + length bases.now ≤ words_of self.now.size }
        ensures { Turns store.old store.new self.now.block (layout_in self.now.layout) (with_both offset bytes.now bases.now) }
    {
        self.set_bytes(store, offset, bytes);
        self.set_bases(store, offset / 4, bases);
    }
}

/// A word without a base.
fn plain(value: u32) -> Word
    ensures { result ≡ record { value = value; block = 0 } }
{
    Word { value, block: 0 }
}

/// How many words so many bytes touch.
pub(crate) fn words_of(bytes: u32) -> u32
    ensures count { result ≡ words_of bytes }
    ensures bounded { result ≤ 2 ^ 30 }
{
    ((u64::from(bytes) + 3) / 4) as u32
}
