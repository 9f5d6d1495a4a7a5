//! Where code enters the runtime.

use fsc_base::Width;
use rv_asm::Label;

/// The accesses of each width.
#[derive(Clone, Copy)]
pub struct Accesses {
    pub load1: Label,
    pub load2: Label,
    pub load4: Label,
    pub store1: Label,
    pub store2: Label,
    pub store4: Label,
}

/// What works on ranges of bytes, and deciding.
#[derive(Clone, Copy)]
pub struct Ranges {
    /// Copies A4 bytes from A0, A1 to A2, A3, which stays.
    pub copy: Label,
    /// Clears A4 bytes at A0, A1.
    pub clear: Label,
    /// Decides the block of A0, A1, which stays, as the shape whose descriptor is T4 behind the data segment's start.
    pub decide: Label,
}

/// The allocator, for the blocks of an activation.
#[derive(Clone, Copy)]
pub struct Blocks {
    /// Makes a block of size A2, of the shape whose descriptor is A3 behind the data segment's start.
    pub make_block: Label,
    /// Ends the life of block A3. Its link is GP.
    pub end_block: Label,
}

/// Calls, entries and returns.
#[derive(Clone, Copy)]
pub struct Calls {
    /// Calls the word at the start of the frame, with A2 words passed. The result is A0, A1.
    pub call: Label,
    /// Enters a function with A3 parameters and A4 slots.
    pub enter: Label,
    /// Enters a variadic function with A3 parameters and A4 slots.
    pub enter_variadic: Label,
    /// Ends A2 blocks and returns A0, A1 to the caller. It has no link.
    pub leave: Label,
}

/// The primitives, on A0, A1; a copy is one of the ranges.
#[derive(Clone, Copy)]
pub struct Primitives {
    pub put: Label,
    pub get: Label,
    pub alloc: Label,
    pub release: Label,
    pub size: Label,
    pub exit: Label,
    pub va: Label,
}

/// The ends of a run, in order of their kinds from 1: block A1, offset A2 and width A3 where the end has them. They have no link.
#[derive(Clone, Copy)]
pub struct Stops {
    pub access: Label,
    pub call: Label,
    pub divide: Label,
    pub abort: Label,
    pub blocks: Label,
    pub depth: Label,
    pub read_only: Label,
}

/// All labels of the runtime that code names.
#[derive(Clone, Copy)]
pub struct Entries {
    /// Accesses of blocks whose shape has one word: the address and, of a store, the word; T4 is the descriptor's place behind the
    /// data segment's start. A load's address and result are A0, A1; a store's address is A2, A3, and its word A0, A1, which stays.
    pub near: Accesses,
    /// Accesses of any block, with the same registers; T5 is the member's offset.
    pub methods: Accesses,
    pub ranges: Ranges,
    pub blocks: Blocks,
    pub calls: Calls,
    pub primitives: Primitives,
    pub stops: Stops,
}

impl Accesses {
    /// The load of a width.
    pub fn load(&self, width: Width) -> Label {
        match width {
            Width::One => self.load1,
            Width::Two => self.load2,
            Width::Four => self.load4,
        }
    }

    /// The store of a width.
    pub fn store(&self, width: Width) -> Label {
        match width {
            Width::One => self.store1,
            Width::Two => self.store2,
            Width::Four => self.store4,
        }
    }
}
