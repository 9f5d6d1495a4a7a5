//! What differs from what was wanted.

use crate::endings::told;
use crate::running::Outcome;
use crate::worked::Worked;
use fsc_base::{Bytes, Name, NoMemory};
use fsc_tool::status;
use std::alloc::{AllocError, Global};

/// How many bytes of a difference are shown.
const MOST_SHOWN: usize = 200;

/// What differs so far, in words.
#[derive(Drop)]
struct Differences {
    alloc: Global,
    text: String,
}

impl Differences {
    /// Notes where a value is another than was wanted.
    fn compare(&mut self, what: &str, found: &[u8], wanted: &[u8]) -> Result<(), AllocError> {
        if found == wanted {
            return Ok(());
        }
        let found = shown(self.alloc, found)?;
        let wanted = shown(self.alloc, wanted)?;
        let comma = if self.text.is_empty() { "" } else { ", " };
        write!(self.text, "{comma}{what} {found:?} and not {wanted:?}")
    }

    /// Notes where a file holds something else than was wanted.
    fn compare_file(
        &mut self,
        name: &Name,
        found: Option<&[u8]>,
        wanted: &Bytes,
    ) -> Result<(), AllocError> {
        let what = shown(self.alloc, name.as_slice())?;
        match found {
            Some(found) => self.compare(what.as_str(), found, wanted.as_slice()),
            None => self.compare(what.as_str(), b"no file", b"a file"),
        }
    }
}

/// What differs of an outcome from what a case wants, if anything does.
pub fn difference(
    alloc: Global,
    worked: &Worked,
    outcome: &Outcome,
) -> Result<Option<String>, NoMemory> {
    let mut differences = Differences {
        alloc,
        text: String::new(alloc),
    };
    compare_ending(&mut differences, worked, outcome)?;
    compare_streams(&mut differences, worked, outcome)?;
    compare_files(&mut differences, worked, outcome)?;
    let Differences { alloc: _, text } = differences;
    Ok(if text.is_empty() { None } else { Some(text) })
}

/// Notes where the ending, the status or whether an image was made differs.
fn compare_ending(
    differences: &mut Differences,
    worked: &Worked,
    outcome: &Outcome,
) -> Result<(), NoMemory> {
    let alloc = differences.alloc;
    if let Some(wanted) = &worked.wanted.ending {
        let found = told(alloc, &outcome.ending)?;
        differences.compare("ending", found.as_bytes(), wanted.as_bytes())?;
    }
    if let Some(wanted) = worked.wanted.status {
        let found = status(&outcome.ending).to_string(alloc)?;
        let wanted = wanted.to_string(alloc)?;
        differences.compare("status", found.as_bytes(), wanted.as_bytes())?;
    }
    let found = outcome.made.is_some();
    differences.compare("made", made(found), made(worked.wanted.made))?;
    Ok(())
}

/// Whether an image was made, in a word.
fn made(is_made: bool) -> &'static [u8] {
    if is_made { b"yes" } else { b"no" }
}

/// Notes where the output, the notes or what is left of the input differs.
fn compare_streams(
    differences: &mut Differences,
    worked: &Worked,
    outcome: &Outcome,
) -> Result<(), NoMemory> {
    let wanted = &worked.wanted;
    differences.compare("output", outcome.output.bytes(), &wanted.output)?;
    differences.compare("notes", outcome.notes.bytes(), &wanted.notes)?;
    let left = match &wanted.left {
        Some(left) => left,
        None => &worked.given.input,
    };
    differences.compare("left", &outcome.left, left)?;
    Ok(())
}

/// Notes where a file differs that must hold something, or that has to stay as it was.
fn compare_files(
    differences: &mut Differences,
    worked: &Worked,
    outcome: &Outcome,
) -> Result<(), NoMemory> {
    let wanted = &worked.wanted.files;
    for (name, bytes) in wanted.iter() {
        differences.compare_file(name, outcome.files.get(name), bytes)?;
    }
    for (name, bytes) in worked.given.files.iter() {
        let is_wanted = wanted
            .iter()
            .any(|(other, _)| other.as_slice() == name.as_slice());
        if !is_wanted {
            differences.compare_file(name, outcome.files.get(name), bytes)?;
        }
    }
    for (one, other) in worked.wanted.same.iter() {
        compare_same(differences, outcome, one, other)?;
    }
    Ok(())
}

/// Notes where two files hold different bytes, or one of them is not there.
fn compare_same(
    differences: &mut Differences,
    outcome: &Outcome,
    one: &Name,
    other: &Name,
) -> Result<(), AllocError> {
    match (outcome.files.get(one), outcome.files.get(other)) {
        (Some(found), Some(wanted)) => differences.compare("same", found, wanted),
        _ => differences.compare("same", b"no file", b"two files"),
    }
}

/// The beginning of some bytes as a text.
fn shown(alloc: Global, bytes: &[u8]) -> Result<String, AllocError> {
    let (front, _) = bytes.split_at(bytes.len().min(MOST_SHOWN));
    String::from_utf8_lossy(alloc, front)
}
