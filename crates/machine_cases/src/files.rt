//! Files in memory.

use crate::streams::calls_of;
use crate::told::{Told, tell, tell_count};
use case_table::{NoStep, bytes_of_text, text_of};
use fsc_base::{Bytes, Name};
use fsc_outside::{Files, Got, MemFiles, Put};
use std::alloc::Global;

/// The files of a case: those that it names, and what is made of them.
#[derive(Drop)]
pub struct FileShelf {
    pairs: Vec<(Name, Bytes)>,
    files: Option<MemFiles>,
}

/// A name.
fn name_of(alloc: Global, text: &str) -> Result<Name, NoStep> {
    Ok(Bytes::from_vec(bytes_of_text(alloc, text)?))
}

/// What came of reading a file.
fn tell_got(alloc: Global, got: &Got) -> Told {
    match got {
        Got::Found(bytes) => Ok(Some(text_of(alloc, bytes.as_slice())?)),
        Got::Absent => tell(alloc, "absent"),
        Got::Failed => tell(alloc, "failed"),
        Got::NoMemory => Err(NoStep::NoMemory),
    }
}

/// What came of writing a file.
fn tell_put(alloc: Global, put: Put) -> Told {
    match put {
        Put::Done => tell(alloc, "done"),
        Put::Failed => tell(alloc, "failed"),
        Put::NoMemory => Err(NoStep::NoMemory),
    }
}

/// Does a step of files that were made.
fn step_of(files: &mut MemFiles, alloc: Global, words: &[&str]) -> Told {
    match words {
        ["read", name] => tell_got(alloc, &files.read(&name_of(alloc, name)?)),
        ["write", name, text] => {
            let bytes = bytes_of_text(alloc, text)?;
            tell_put(alloc, files.write(&name_of(alloc, name)?, &bytes))
        }
        ["get", name] => match files.get(&name_of(alloc, name)?) {
            Some(bytes) => Ok(Some(text_of(alloc, bytes)?)),
            None => tell(alloc, "none"),
        },
        ["file_faults"] => tell_count(alloc, files.faults()),
        ["absences"] => tell_count(alloc, files.absences()),
        _ => Ok(None),
    }
}

impl FileShelf {
    /// No files.
    pub fn new(alloc: Global) -> FileShelf {
        FileShelf {
            pairs: Vec::new(alloc),
            files: None,
        }
    }

    /// Does a step of files.
    pub fn step(&mut self, alloc: Global, words: &[&str]) -> Told {
        match words {
            ["holds", name, text] => {
                let bytes = Bytes::from_vec(bytes_of_text(alloc, text)?);
                self.pairs.push((name_of(alloc, name)?, bytes))?;
                tell(alloc, "ok")
            }
            ["files", calls @ ..] => {
                let calls = calls_of(alloc, calls)?;
                self.files = Some(MemFiles::new(alloc, &self.pairs, &calls)?);
                tell(alloc, "ok")
            }
            _ => match &mut self.files {
                Some(files) => step_of(files, alloc, words),
                None => Ok(None),
            },
        }
    }
}
