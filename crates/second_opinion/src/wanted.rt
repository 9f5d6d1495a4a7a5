//! What the runs of a program have to be.

use case_file::{CaseNo, Field};
use std::alloc::{AllocError, Global};

/// What the runs of a program have to be.
#[derive(Drop)]
pub struct Wanted {
    /// How they end, in words; `none` where they don't at that cost, and the rule of linking that they break where they don't begin.
    pub end: String,
    pub output: Vec<u8>,
    /// How many bytes of the input are left.
    pub left: u64,
    /// How many steps the machine of fat code does.
    pub steps: u64,
    /// How many accesses are away.
    pub away: u64,
    /// The objects that are alive at the end, a line each: number, size and shape.
    pub live: String,
}

impl Wanted {
    /// Nothing.
    pub fn new(alloc: Global) -> Wanted {
        Wanted {
            end: String::new(alloc),
            output: Vec::new(alloc),
            left: 0,
            steps: 0,
            away: 0,
            live: String::new(alloc),
        }
    }

    /// Takes the end.
    pub fn take_end(&mut self, field: &Field) -> Result<(), CaseNo> {
        if !self.end.is_empty() {
            return Err(field.malformed("a second end"));
        }
        self.end.push_str(field.head.as_str())?;
        Ok(())
    }

    /// Takes an object that is alive at the end.
    pub fn take_live(&mut self, line: &str) -> Result<(), AllocError> {
        self.live.push_str(line)?;
        self.live.push('\n')
    }
}
