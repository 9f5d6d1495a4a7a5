//! The objects that are alive at the end of a run, with their shapes and what they hold.

use fsc_base::{Word, WordKind};
use std::alloc::{AllocError, Global};

/// Objects of more bytes are told without what they hold.
const MOST_TOLD: u32 = 0x1_0000;

/// Objects in words, a line each: number, size, shape and the sum over what it holds.
#[derive(Drop)]
pub struct Objects {
    text: String,
}

/// An object that is alive.
#[derive(Clone, Copy)]
pub struct Object {
    pub block: u32,
    pub size: u32,
    pub desc: u32,
}

impl Object {
    /// How many words are told of it: all, or none of a large object or of one that is not decided.
    pub fn told_words(self) -> u32 {
        if self.size > MOST_TOLD || self.desc < 4 {
            0
        } else {
            self.size.div_ceil(4)
        }
    }
}

/// The sum over words: each value and each number of a base counts.
pub fn add_to_sum(sum: u32, word: Word) -> u32 {
    sum.wrapping_mul(31)
        .wrapping_add(word.value)
        .wrapping_mul(31)
        .wrapping_add(word.block)
}

impl Objects {
    /// None.
    pub fn new(alloc: Global) -> Objects {
        Objects {
            text: String::new(alloc),
        }
    }

    /// The lines.
    pub fn text(&self) -> &str {
        self.text.as_str()
    }

    /// Begins the line of an object, whose shape follows.
    pub fn begin(&mut self, object: Object) -> Result<(), AllocError> {
        write!(self.text, "{} {} ", object.block, object.size)?;
        match object.desc {
            2 => self.text.push_str("undecided"),
            3 => self.text.push_str("plane"),
            _ => Ok(()),
        }
    }

    /// Adds a word of the shape.
    pub fn add_kind(&mut self, kind: WordKind) -> Result<(), AllocError> {
        match kind {
            WordKind::Fat => self.text.push('f'),
            WordKind::Narrow => self.text.push('n'),
        }
    }

    /// Ends the line.
    pub fn finish(&mut self, sum: u32) -> Result<(), AllocError> {
        writeln!(self.text, " {sum}")
    }
}
