//! Functions, as their code sees them.

ghost use Rattle.std.specs.Prelude.{pos, negsuc, ◌≤ℤ◌};

use rv_runtime::Entries;

/// Where the words of an activation stand from S0 on: behind the return address and the first block, first the slots, then the pending
/// words. Each takes 8 bytes, its value first. A frame has at most 4,096 bytes, and S0 is 2,048 behind its start, so that one
/// instruction reaches each word.
#[derive(Clone, Copy)]
pub struct Frame {
    pub slots: u8,
}

/// What an operation's code depends on beside the operation.
#[derive(Clone, Copy)]
pub struct Site {
    /// Of the runtime.
    pub entries: Entries,
    pub frame: Frame,
    /// Whether the activation's first block is that of the words beyond its parameters.
    pub is_variadic: bool,
    /// How many entry blocks the function has.
    pub blocks: u8,
}

impl Frame {
    /// The place of a slot's value, in bytes from S0; its block stands 4 bytes behind.
    pub fn slot(self, slot: u8) -> i32 {
        8 + 8 * i32::from(slot) - 2048
    }

    /// How far the value of the pending word with this index stands behind the frame's start, in bytes; its block stands 4 bytes
    /// behind it. -1 is an index too, whose word means nothing.
    fn pending(self, index: i16) -> i32
        ensures low { negsuc 299999 ≤ℤ result }
        ensures high { result ≤ℤ pos 300000 }
    {
        16 + 8 * i32::from(self.slots) + 8 * i32::from(index)
    }

    /// The place of the last pending word where there are so many, in bytes from S0, as are the next two.
    pub fn top(self, height: u8) -> i32 {
        self.pending(i16::from(height) - 1) - 2048
    }

    /// The place of the word below the last one.
    pub fn second(self, height: u8) -> i32 {
        self.pending(i16::from(height) - 2) - 2048
    }

    /// The place of the word below these two.
    pub fn third(self, height: u8) -> i32 {
        self.pending(i16::from(height) - 3) - 2048
    }

    /// How far the frame of a called function begins behind this one, in bytes: at the called word, which has so many pending words
    /// below it.
    pub fn callee(self, below: u8) -> i32 {
        self.pending(i16::from(below))
    }
}

impl Site {
    /// How many blocks the activation has in front of its entry blocks.
    pub fn extra_blocks(&self) -> i32
        ensures low { pos 0 ≤ℤ result }
        ensures high { result ≤ℤ pos 1 }
    {
        i32::from(self.is_variadic)
    }
}
