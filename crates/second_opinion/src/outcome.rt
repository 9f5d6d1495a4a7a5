//! What a run leaves.

use fsc_base::{End, NoMemory};
use fsc_outside::{MemSink, MemSource, Source, Took};
use std::alloc::{AllocError, Global};

/// What is told of a run that has not ended.
pub const NONE: &str = "none";

/// How a run stopped.
#[derive(Clone, Copy)]
pub enum How {
    Ended(End),
    /// It has not ended within its bound.
    Bound,
    /// It stopped as no run of a program should.
    Fault(&'static str),
}

impl How {
    /// Whether it has not ended within its bound.
    pub fn is_bound(self) -> bool {
        matches!(self, How::Bound)
    }
}

/// The same in words.
pub fn told(alloc: Global, how: How) -> Result<String, AllocError> {
    match how {
        How::Ended(end) => format!(in alloc; "{end:?}"),
        How::Bound => String::from_str(alloc, NONE),
        How::Fault(word) => String::from_str(alloc, word),
    }
}

/// The input and the output of a run.
#[derive(Drop)]
pub struct Streams {
    pub input: MemSource,
    pub output: MemSink,
}

impl Streams {
    /// With this input, and nothing written.
    pub fn new(alloc: Global, input: &[u8]) -> Result<Streams, NoMemory> {
        Ok(Streams {
            input: MemSource::new(alloc, input, &[])?,
            output: MemSink::new(alloc, &[])?,
        })
    }

    /// How many bytes of the input are left; they are taken.
    pub fn left(&mut self) -> u64 {
        let mut left = 0_u64;
        let mut buffer = [0_u8; 1];
        for _ in 0..u64::MAX {
            match self.input.read(&mut buffer) {
                Took::Moved(_) => left = left.saturating_add(1),
                Took::End | Took::Failed => break,
            }
        }
        left
    }
}
