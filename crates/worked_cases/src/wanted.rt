//! What must come of a case.

use crate::given::copied;
use case_file::{CaseNo, Field};
use fsc_base::{Bytes, Name};
use std::alloc::{AllocError, Global};

/// What must come of a case.
#[derive(Debug, Drop)]
pub struct Wanted {
    /// The ending, in words.
    pub ending: Option<String>,
    /// The exit status.
    pub status: Option<u8>,
    /// All bytes that are written to the output.
    pub output: Vec<u8>,
    /// All bytes that are written to the notes.
    pub notes: Vec<u8>,
    /// What is left of the input. None: all of it.
    pub left: Option<Vec<u8>>,
    /// What these files hold afterwards. The others that were given hold what they held.
    pub files: Vec<(Name, Bytes)>,
    /// Pairs of files that hold the same bytes afterwards.
    pub same: Vec<(Name, Name)>,
    /// Whether an image is left that was made of the text.
    pub made: bool,
}

impl Wanted {
    /// Nothing written, nothing taken and no image, with no word on the ending.
    pub fn new(alloc: Global) -> Wanted {
        Wanted {
            ending: None,
            status: None,
            output: Vec::new(alloc),
            notes: Vec::new(alloc),
            left: None,
            files: Vec::new(alloc),
            same: Vec::new(alloc),
            made: false,
        }
    }

    /// Takes the names of two files, parted by a space.
    pub fn take_same(&mut self, alloc: Global, field: &Field) -> Result<(), CaseNo> {
        match field.head.as_str().split_once(' ') {
            Some((one, other)) => {
                let one = copied(alloc, one.as_bytes())?;
                let other = copied(alloc, other.as_bytes())?;
                Ok(self.same.push((one, other))?)
            }
            None => Err(field.malformed("no two names")),
        }
    }

    /// Takes a line of the notes.
    pub fn take_note(&mut self, line: &[u8]) -> Result<(), AllocError> {
        self.notes.extend_from_slice(line)?;
        self.notes.push(b'\n')?;
        Ok(())
    }
}
