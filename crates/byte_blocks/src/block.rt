//! One block.

ghost use Rattle.std.specs.Prelude.{◌≡◌, ◌+◌, ◌*◌, ◌/◌, ◌^◌, ◌<◌, ◌≤◌, length, take, drop, replicate, true, IfOk, IsTrue};
ghost use Rattle.c_memory.specs.Access.{base_in, distance, is_within, touched, with_base, with_bytes, with_word, word_in};
ghost use Rattle.c_memory.specs.Blocks.{ended, is_live_object, is_object, sealed, words_of};
ghost use Rattle.c_memory.specs.Bytes.{little_endian, overwritten};
ghost use Rattle.c_memory.specs.Copying.{copied_bases, with_copy};
ghost use Rattle.c_memory.specs.Storage.{new_block};
ghost use Rattle.byte_blocks.specs.Asking.{kind_of};

use crate::piece::{Piece, Stretch};
use crate::sizes::words_of;
use c_memory::BlockKind;
use fsc_base::Word;
use std::alloc::{AllocError, Global};
use std::marker::Model;

/// An object or a function. Contracts see it as the block.
#[derive(Debug, Drop)]
pub(crate) struct Block {
    size: u32,
    base: u32,
    kind: BlockKind,
    is_live: bool,
    is_sealed: bool,
    bytes: Vec<u8>,
    bases: Vec<u32>,
}

impl Model for Block {
    ghost use Rattle.std.specs.Prelude.{◌≡◌, true, length};
    ghost use Rattle.c_memory.specs.Blocks.{Block, words_of};

    ghost Value = { Block };

    ghost view = { λ b. record { size = b.size; base = b.base; kind = b.kind; is_live = b.is_live; is_sealed = b.is_sealed; bytes = b.bytes.items; bases = b.bases.items } };

    ghost invariant = { λ b. b.is_live ≡ true → (length b.bytes.items ≡ b.size) × (length b.bases.items ≡ words_of b.size) };
}

/// The number that at most four bytes spell, the lowest first.
fn little_endian(bytes: &[u8]) -> u32
    requires { length bytes.now ≤ 4 }
    ensures { result ≡ little_endian bytes.now }
{
    match bytes {
        [] => 0,
        [a] => u32::from(*a),
        [a, b] => u32::from(u16::from_le_bytes([*a, *b])),
        [a, b, c] => u32::from_le_bytes([*a, *b, *c, 0]),
        [a, b, c, d] => u32::from_le_bytes([*a, *b, *c, *d]),
        _ => unreachable!(),
    }
}

impl Block {
    /// A new block: zero bytes, and no bases. It takes memory for both, and time to clear it. Refused only for want of
    /// memory.
    pub fn new(alloc: Global, base: u32, size: u32, kind: BlockKind) -> Result<Block, AllocError>
        ensures { IfOk result (λ block. block ≡ new_block base size kind) }
    {
        Ok(Block {
            size,
            base,
            kind,
            is_live: true,
            is_sealed: false,
            bytes: vec![in alloc; 0; size as usize]?,
            bases: vec![in alloc; 0; words_of(size) as usize]?,
        })
    }

    /// Its size in bytes.
    pub fn size(&self) -> u32
        ensures { result ≡ self.now.size }
    {
        self.size
    }

    /// Its virtual base.
    pub fn base(&self) -> u32
        ensures { result ≡ self.now.base }
    {
        self.base
    }

    /// What it is, unless it is a dead object.
    pub fn kind(&self) -> Option<BlockKind>
        ensures { result ≡ kind_of self.now }
    {
        if self.is_live || !self.is_object() {
            Some(self.kind)
        } else {
            None
        }
    }

    /// Whether it refuses writes.
    pub fn is_sealed(&self) -> bool
        ensures { result ≡ self.now.is_sealed }
    {
        self.is_sealed
    }

    /// Whether it is an object, and no function.
    fn is_object(&self) -> bool
        ensures { result ≡ is_object self.now.kind }
    {
        match self.kind {
            BlockKind::Function => false,
            BlockKind::Static | BlockKind::Entry | BlockKind::Alloc => true,
        }
    }

    /// How far a value lies behind its virtual base, modulo 2^32.
    pub fn distance(&self, value: u32) -> u32
        ensures { result ≡ distance value self.now.base }
    {
        value.wrapping_sub(self.base)
    }

    /// Whether it is a live object that has `n` bytes from an offset on.
    pub fn is_within(&self, offset: u32, n: u32) -> bool
        ensures within { result ≡ is_within self.now offset n }
        ensures reach { result ≡ true → offset + n < 2 ^ 32 }
    {
        let size = self.size;
        self.is_object() && self.is_live && u64::from(offset) + u64::from(n) <= u64::from(size)
    }

    /// The base of its word at an offset, where `n` bytes from there are that word whole; else 0.
    fn base_in(&self, offset: u32, n: u32) -> u32
        requires { is_within self.now offset n ≡ true }
        ensures { result ≡ base_in self.now offset n }
    {
        if n != 4 || offset % 4 != 0 {
            return 0;
        }
        self.bases[(offset / 4) as usize]
    }

    /// `n` of its bytes, from an offset on.
    fn part(&self, offset: u32, n: u32) -> &[u8]
        requires { is_within self.now offset n ≡ true }
        ensures bytes { result.now ≡ take n (drop offset self.now.bytes) }
        ensures length { length result.now ≡ n }
    {
        let start = offset as usize;
        &self.bytes.as_slice()[start..start + n as usize]
    }

    /// `n` of its bytes, from an offset on, as a word.
    pub fn word(&self, offset: u32, n: u32) -> Word
        requires within { is_within self.now offset n ≡ true }
        requires few { n ≤ 4 }
        ensures { result ≡ word_in self.now offset n }
    {
        Word {
            value: little_endian(self.part(offset, n)),
            block: self.base_in(offset, n),
        }
    }

    /// What a copy takes from it, where the bytes go to a block that has as many there. It takes memory for that. Refused
    /// only for want of memory.
    pub fn piece(&self, alloc: Global, stretch: Stretch) -> Result<Piece, AllocError>
        requires within { is_within self.now stretch.from stretch.n ≡ true }
        requires target { stretch.to + stretch.n < 2 ^ 32 }
        ensures bytes { IfOk result (λ piece. piece.bytes.items ≡ take stretch.n (drop stretch.from self.now.bytes)) }
        ensures length { IfOk result (λ piece. length piece.bytes.items ≡ stretch.n) }
        ensures bases { IfOk result (λ piece. piece.bases.items ≡ copied_bases (touched stretch.to stretch.n) self.now.bases stretch.to stretch.from stretch.n (stretch.to / 4)) }
    {
        let bytes = self.part(stretch.from, stretch.n);
        Piece::new(alloc, stretch, bytes, self.bases.as_slice())
    }

    /// Puts bytes at an offset. Each word that they touch loses its base.
    fn put_bytes(&mut self, offset: u32, bytes: &[u8])
        requires { is_within self.old offset (length bytes.now) ≡ true }
        ensures { self.new ≡ with_bytes self.old offset bytes.now }
    {
        let n = bytes.len();
        let start = offset as usize;
        self.bytes.as_mut_slice()[start..start + n].copy_from_slice(bytes);
        let end = words_of(offset + n as u32) as usize;
        self.bases.as_mut_slice()[start / 4..end].fill(0);
    }

    /// Puts zero bytes at an offset. Each word that they touch loses its base.
    pub fn put_zeros(&mut self, offset: u32, n: u32)
        requires { is_within self.old offset n ≡ true }
        ensures { self.new ≡ with_bytes self.old offset (replicate n 0) }
    {
        let start = offset as usize;
        self.bytes.as_mut_slice()[start..start + n as usize].fill(0);
        let end = words_of(offset + n) as usize;
        self.bases.as_mut_slice()[start / 4..end].fill(0);
    }

    /// Puts the `n` lowest bytes of a word at an offset, and its base where `n` bytes from there are a word whole. Each
    /// other word that they touch loses its base.
    pub fn put_word(&mut self, offset: u32, n: u32, what: Word)
        requires within { is_within self.old offset n ≡ true }
        requires few { n ≤ 4 }
        ensures { self.new ≡ with_word self.old offset n what }
    {
        self.put_bytes(offset, &what.value.to_le_bytes()[..n as usize]);
        if n == 4 && offset % 4 == 0 {
            self.bases[(offset / 4) as usize] = what.block;
        }
    }

    /// Puts what a copy took at an offset.
    pub fn put_piece(&mut self, offset: u32, piece: &Piece)
        requires within { is_within self.old offset (length piece.now.bytes.items) ≡ true }
        requires words { length piece.now.bases.items ≡ touched offset (length piece.now.bytes.items) }
        ensures { self.new ≡ record self.old { bytes = overwritten self.old.bytes offset piece.now.bytes.items; bases = overwritten self.old.bases (offset / 4) piece.now.bases.items } }
    {
        let start = offset as usize;
        let (bytes, bases) = (piece.bytes.as_slice(), piece.bases.as_slice());
        self.bytes.as_mut_slice()[start..start + bytes.len()].copy_from_slice(bytes);
        self.bases.as_mut_slice()[start / 4..start / 4 + bases.len()].copy_from_slice(bases);
    }

    /// Ends its life, and gives its bytes and bases back.
    pub fn end(&mut self, alloc: Global)
        ensures { self.new ≡ ended self.old }
    {
        self.is_live = false;
        self.bytes = Vec::new(alloc);
        self.bases = Vec::new(alloc);
    }

    /// Makes it refuse writes.
    pub fn seal(&mut self)
        ensures { self.new ≡ sealed self.old }
    {
        self.is_sealed = true;
    }
}
