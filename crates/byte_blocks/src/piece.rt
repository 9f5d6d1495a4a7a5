//! What a copy takes from its source before it writes.

ghost use Rattle.std.specs.Prelude.{◌≡◌, ◌*◌, ◌/◌, ◌+◌, ◌≤◌, ◌^◌, ◌<◌, length, IfOk};
ghost use Rattle.c_memory.specs.Access.{touched};
ghost use Rattle.c_memory.specs.Copying.{copied_base, copied_bases, is_whole};

use crate::sizes::words_of;
use std::alloc::{AllocError, Global};

/// Where the bytes of a copy lie: offsets in the target and in the source, and how many bytes.
#[derive(Clone, Copy, Debug)]
pub(crate) struct Stretch {
    pub(crate) to: u32,
    pub(crate) from: u32,
    pub(crate) n: u32,
}

/// The bytes of a copy, and a base for each word of the target that they touch.
#[derive(Debug, Drop)]
pub(crate) struct Piece {
    pub(crate) bytes: Vec<u8>,
    pub(crate) bases: Vec<u32>,
}

impl Stretch {
    /// Whether word `word` of the target is covered whole, by bytes from a multiple of 4.
    fn is_whole(self, word: u32) -> bool
        ensures { result ≡ is_whole self.to self.from self.n word }
    {
        let (to, from, n) = (u64::from(self.to), u64::from(self.from), u64::from(self.n));
        let start = 4 * u64::from(word);
        to <= start && start + 4 <= to + n && (from + (start - to)) % 4 == 0
    }

    /// The base that word `word` of the target gets, of the bases of the source.
    fn copied_base(self, source: &[u32], word: u32) -> u32
        requires within { self.from + self.n ≤ 4 * length source.now }
        ensures { result ≡ copied_base source.now self.to self.from self.n word }
    {
        if self.is_whole(word) {
            let start = 4 * u64::from(word);
            source[((u64::from(self.from) + (start - u64::from(self.to))) / 4) as usize]
        } else {
            0
        }
    }

    /// The bases that the touched words of the target get, of the bases of the source.
    fn copied_bases(self, alloc: Global, source: &[u32]) -> Result<Vec<u32>, AllocError>
        requires target { self.to + self.n < 2 ^ 32 }
        requires source { self.from + self.n ≤ 4 * length source.now }
        ensures { IfOk result (λ bases. bases.items ≡ copied_bases (touched self.to self.n) source.now self.to self.from self.n (self.to / 4)) }
    {
        let first = self.to / 4;
        let end = words_of(self.to + self.n);
        let mut bases = Vec::with_capacity(alloc, (end - first) as usize)?;
        for word in first..end {
            bases.push(self.copied_base(source, word))?;
        }
        Ok(bases)
    }
}

impl Piece {
    /// What a copy takes: these bytes, and bases from those of the source. It takes memory for both, n bytes and four for
    /// each touched word. Refused only for want of memory.
    pub fn new(
        alloc: Global,
        stretch: Stretch,
        bytes: &[u8],
        bases: &[u32],
    ) -> Result<Piece, AllocError>
        requires target { stretch.to + stretch.n < 2 ^ 32 }
        requires source { stretch.from + stretch.n ≤ 4 * length bases.now }
        ensures bytes { IfOk result (λ piece. piece.bytes.items ≡ bytes.now) }
        ensures bases { IfOk result (λ piece. piece.bases.items ≡ copied_bases (touched stretch.to stretch.n) bases.now stretch.to stretch.from stretch.n (stretch.to / 4)) }
    {
        Ok(Piece {
            bytes: Vec::from_slice(alloc, bytes)?,
            bases: stretch.copied_bases(alloc, bases)?,
        })
    }
}
