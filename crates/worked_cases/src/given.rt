//! What a case hands to the tool.

use case_file::{CaseNo, Field};
use fsc_base::{Bytes, Name};
use std::alloc::Global;

/// The numbers of the calls that fail, counted from 1, of each object.
#[derive(Debug, Drop)]
pub struct Failing {
    pub files: Vec<u64>,
    pub input: Vec<u64>,
    pub output: Vec<u64>,
    pub notes: Vec<u64>,
}

/// What a case hands to the tool.
#[derive(Debug, Drop)]
pub struct Given {
    /// The words of calls that come before, over the same files.
    pub first: Vec<Vec<Name>>,
    pub words: Vec<Name>,
    pub files: Vec<(Name, Bytes)>,
    pub input: Vec<u8>,
    pub failing: Failing,
    /// How many bytes a call of the input, the output or the notes moves at most.
    pub most: Option<u32>,
}

impl Given {
    /// No words, no files and no input, where no call fails.
    pub fn new(alloc: Global) -> Given {
        Given {
            first: Vec::new(alloc),
            words: Vec::new(alloc),
            files: Vec::new(alloc),
            input: Vec::new(alloc),
            failing: Failing {
                files: Vec::new(alloc),
                input: Vec::new(alloc),
                output: Vec::new(alloc),
                notes: Vec::new(alloc),
            },
            most: None,
        }
    }

    /// Puts the words of the field behind the others.
    pub fn take_words(&mut self, alloc: Global, field: &Field) -> Result<(), CaseNo> {
        let mut words = words_of(alloc, field)?;
        Ok(self.words.append(&mut words)?)
    }

    /// Takes the words of a call that comes before, behind those of the calls before it.
    pub fn take_first(&mut self, alloc: Global, field: &Field) -> Result<(), CaseNo> {
        Ok(self.first.push(words_of(alloc, field)?)?)
    }

    /// Takes the numbers of failing calls, behind the name of what fails.
    pub fn take_failing(&mut self, field: &Field) -> Result<(), CaseNo> {
        let (object, numbers) = field.head.as_str().split_once(' ').unwrap_or(("", ""));
        let failing = match object {
            "files" => &mut self.failing.files,
            "input" => &mut self.failing.input,
            "output" => &mut self.failing.output,
            "notes" => &mut self.failing.notes,
            _ => return Err(field.malformed("nothing that can fail")),
        };
        for number in numbers.split(' ') {
            match number.parse() {
                Ok(number) => failing.push(number)?,
                Err(_) => return Err(field.malformed("no number")),
            }
        }
        Ok(())
    }

    /// Takes how many bytes a call moves at most.
    pub fn take_most(&mut self, field: &Field) -> Result<(), CaseNo> {
        match field.number()? {
            0 => Err(field.malformed("no bytes at all")),
            most => {
                self.most = Some(most);
                Ok(())
            }
        }
    }
}

/// The words of a field: those of its line and its bytes together, parted by single spaces.
fn words_of(alloc: Global, field: &Field) -> Result<Vec<Name>, CaseNo> {
    let mut text = field.head_bytes(alloc)?;
    text.extend_from_slice(&field.body)?;
    let mut words = Vec::new(alloc);
    if text.is_empty() {
        return Ok(words);
    }
    for word in text.split(|byte| *byte == b' ') {
        words.push(copied(alloc, word)?)?;
    }
    Ok(words)
}

/// A copy of bytes.
pub fn copied(alloc: Global, bytes: &[u8]) -> Result<Bytes, CaseNo> {
    Ok(Bytes::from_vec(Vec::from_slice(alloc, bytes)?))
}
