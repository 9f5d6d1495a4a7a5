//! What is counted beside the blocks.

ghost use Rattle.std.specs.Prelude.{◌≡◌, ◌+◌, ◌-◌, ◌^◌, ◌<◌, ◌↔◌, List, [], ◌∷◌, ◌++◌, IsTrue, replicate, slice_index, slice_set};
ghost use Rattle.c_memory.specs.Blocks.{Block};
ghost use Rattle.c_memory.specs.Storage.{class_of, live_in, new_block, raised};
ghost use Rattle.c_memory.specs.declared.kind.BlockKind.{BlockKind};
ghost use Rattle.byte_blocks.specs.Counts.{Counts, IsWithinLimits};

use crate::sizes::{CLASS_COUNT, class_bytes, class_of, span};
use c_memory::{FIRST_BASE, HEADER_BYTES, MOST_BASE, MOST_STORED};

/// The counts that storage goes by. A class is known by its place among the classes.
#[derive(Clone, Copy, Debug)]
pub(crate) struct Tally {
    /// For each class the greatest number of its blocks that were live at once.
    pub(crate) greatest: [u32; CLASS_COUNT],
    /// For each class how many of its blocks are live.
    pub(crate) live: [u32; CLASS_COUNT],
    /// How many bytes are stored.
    pub(crate) stored: u64,
    /// The virtual base of the next block.
    pub(crate) next_base: u64,
}

impl Tally {
    /// The counts where there is no block.
    pub fn new() -> Tally
        ensures counts { Counts [] result }
        ensures greatest { result.greatest ≡ replicate 30 0 }
        ensures limits { IsWithinLimits result }
    {
        Tally {
            greatest: [0; CLASS_COUNT],
            live: [0; CLASS_COUNT],
            stored: 0,
            next_base: FIRST_BASE,
        }
    }

    /// The counts with one more block, of so many bytes. Where all cells of its class are in use there is one more cell.
    pub fn with_block(self, size: u32) -> Tally
        requires few { slice_index self.live (class_of size) + 1 < 2 ^ 32 }
        requires limits { IsWithinLimits self }
        ensures counts { (blocks : List Block) (kind : BlockKind) → Counts blocks self → Counts (blocks ++ new_block self.next_base size kind ∷ []) result }
        ensures greatest { (blocks : List Block) → Counts blocks self → result.greatest ≡ raised self.greatest (class_of size) (live_in (class_of size) blocks + 1) }
    {
        let class = class_of(size);
        let mut tally = self;
        if tally.live[class] >= tally.greatest[class] {
            tally.greatest[class] = tally.live[class] + 1;
            tally.stored += class_bytes(class);
        }
        tally.live[class] += 1;
        tally.stored += HEADER_BYTES;
        tally.next_base += span(size);
        tally
    }

    /// Counts the end of a block of so many bytes.
    pub fn end_block(&mut self, size: u32)
        requires { 0 < slice_index self.old.live (class_of size) }
        ensures { self.new ≡ record self.old { live = slice_set self.old.live (class_of size) (slice_index self.old.live (class_of size) - 1) } }
    {
        self.live[class_of(size)] -= 1;
    }

    /// Whether no more is stored and no virtual base is further than the limits say.
    pub fn is_within_limits(&self) -> bool
        ensures { IsTrue result ↔ IsWithinLimits self.now }
    {
        self.stored <= MOST_STORED && self.next_base <= MOST_BASE
    }
}
