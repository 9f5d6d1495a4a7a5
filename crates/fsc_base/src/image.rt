//! Images: what the machine runs and a file holds.

ghost use Rattle.std.specs.Prelude.{◌≡◌, ◌≤◌, ◌↔◌, length, IsTrue};
ghost use Rattle.fsc_base.specs.Image.{IsSound, IsSoundSegment, Apart, AllApart, total_size};

use crate::bytes::Bytes;
use std::marker::Model;

/// The most segments of a sound image.
const MOST_SEGMENTS: usize = 64;

/// The most bytes that the segments of a sound image take together.
const MOST_BYTES: u64 = 0x8000_0000;

/// A range of memory with its rights and its first bytes; the rest of it is zero.
#[derive(Debug, Drop)]
pub struct Segment {
    /// The address of its first byte.
    pub address: u32,
    /// How many bytes of memory it takes.
    pub size: u32,
    /// The sum of 4 (may be read), 2 (may be written) and 1 (may be executed), as in ELF.
    pub flags: u32,
    /// What its memory begins with.
    pub bytes: Bytes,
}

/// A list of segments, in the order of their program headers.
#[derive(Debug, Drop)]
pub struct Segments {
    items: Vec<Segment>,
}

impl Model for Segments {
    ghost use Rattle.std.specs.Prelude.{List};
    ghost use Rattle.fsc_base.specs.declared.image.Segment.{Segment};

    ghost Value = { List Segment };

    ghost view = { λ s. s.items.items };
}

/// A program in memory: where it starts, and its segments.
#[derive(Debug, Drop)]
pub struct Image {
    /// The address of the first instruction.
    pub entry: u32,
    pub segments: Segments,
}

impl Segment {
    /// Whether it has a size, room for its bytes and some right, and ends within 32 bits of address.
    fn is_sound(&self) -> bool
        ensures { IsTrue result ↔ IsSoundSegment self.now }
    {
        0 < self.size
            && self.bytes.as_slice().len() <= self.size as usize
            && 1 <= self.flags
            && self.flags <= 7
            && u64::from(self.address) + u64::from(self.size) <= 1 << 32
    }

    /// Whether the two share no address.
    fn is_apart(&self, other: &Segment) -> bool
        ensures { IsTrue result ↔ Apart self.now other.now }
    {
        u64::from(self.address) + u64::from(self.size) <= u64::from(other.address)
            || u64::from(other.address) + u64::from(other.size) <= u64::from(self.address)
    }
}

/// Whether no two of the segments share an address.
fn are_apart(segments: &[Segment]) -> bool
    ensures { IsTrue result ↔ AllApart segments.now }
{
    match segments {
        [] => true,
        [first, others @ ..] => others.iter().all(|other| first.is_apart(other))
            && are_apart(others),
    }
}

/// The sum of their sizes, in bytes.
fn total_size(segments: &[Segment]) -> u64
    requires { length segments.now ≤ 64 }
    ensures { result ≡ total_size segments.now }
{
    let mut total = 0;
    for segment in segments {
        total += u64::from(segment.size);
    }
    total
}

impl Segments {
    /// The segments, from a vector. It takes no memory.
    pub fn from_vec(items: Vec<Segment>) -> Segments
        ensures { result ≡ items.items }
    {
        Segments { items }
    }

    /// The same segments as a vector. It takes no memory.
    pub fn into_vec(self) -> Vec<Segment>
        ensures { result.items ≡ self }
    {
        let Segments { items } = self;
        items
    }

    /// The segments, lent.
    pub fn as_slice(&self) -> &[Segment]
        ensures { result.now ≡ self.now }
    {
        self.items.as_slice()
    }
}

impl Image {
    /// Whether the machine can be started on it: it has 1 to 64 segments, each with a size above 0, no more bytes
    /// than that, flags from 1 to 7 and an end of at most 2^32; no two overlap; and their sizes add up to at most
    /// 2^31 bytes.
    pub fn is_sound(&self) -> bool
        ensures { IsTrue result ↔ IsSound self.now }
    {
        let segments = self.segments.as_slice();
        1 <= segments.len()
            && segments.len() <= MOST_SEGMENTS
            && segments.iter().all(|segment| segment.is_sound())
            && are_apart(segments)
            && total_size(segments) <= MOST_BYTES
    }
}
