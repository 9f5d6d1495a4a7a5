//! The calls that blocks of bytes and cells both answer.

use c_memory::BlockKind;
use fsc_base::{Width, Word};

/// A call on memory.
#[derive(Clone, Copy, Debug, PartialEq, Eq)]
pub enum Call {
    /// Makes a function.
    Function,
    /// Makes an object of so many bytes: its descriptor as cells have it, and its kind as blocks have it.
    Make {
        size: u32,
        desc: u32,
        kind: BlockKind,
    },
    /// Ends the life of an object.
    Kill(u32),
    /// Seals an object.
    Seal(u32),
    Read(Word, Width),
    Write(Word, Width, Word),
    Copy {
        to: Word,
        from: Word,
        count: u32,
    },
    /// The size of a block.
    Size(u32),
    /// The virtual base of a block.
    Base(u32),
}
