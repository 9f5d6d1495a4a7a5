//! Why an access is refused.

ghost use Rattle.std.specs.Prelude.{◌≡◌};
ghost use Rattle.c_memory.specs.declared.access.CopyNo.TheVariants as refusals;

use std::alloc::AllocError;

/// The access that is refused: the block of its word, the word's offset in that block, and how many bytes.
#[derive(Clone, Copy, Debug, PartialEq, Eq)]
pub struct Outside {
    pub block: u32,
    pub offset: u32,
    pub width: u32,
}

/// Why a write is refused.
#[derive(Clone, Copy, Debug, PartialEq, Eq)]
pub enum WriteNo {
    /// Its bytes are not all within a live object.
    Outside(Outside),
    /// They are, and the object is sealed.
    ReadOnly(Outside),
}

/// Why a copy is refused.
#[derive(Clone, Copy, Debug, PartialEq, Eq)]
pub enum CopyNo {
    /// The source's bytes are not all within a live object, or the source's are and the target's are not.
    Outside(Outside),
    /// Both are, and the target is sealed.
    ReadOnly(Outside),
    /// No memory was left for what is copied.
    NoMemory,
}

impl From<AllocError> for CopyNo {
    ghost from_gives = { λ _ refusal. refusal ≡ refusals.NoMemory };

    fn from(_error: AllocError) -> CopyNo {
        CopyNo::NoMemory
    }
}
