//! Running the tool over objects in memory.

use crate::given::Given;
use fsc_base::{Image, Name, NoMemory, Segments};
use fsc_outside::{MemFiles, MemSink, MemSource, Source, Took};
use fsc_tool::{Ending, status, tool};
use std::alloc::Global;

/// What a call of the tool left.
#[derive(Drop)]
pub struct Outcome {
    pub ending: Ending,
    pub output: MemSink,
    pub notes: MemSink,
    pub left: Vec<u8>,
    pub files: MemFiles,
    pub made: Option<Image>,
}

impl Outcome {
    /// Whether a call that comes before a case's own went well: it exited with 0, and wrote nothing but files.
    fn is_well(&self) -> bool {
        status(&self.ending) == 0 && self.output.bytes().is_empty() && self.notes.bytes().is_empty()
    }

    /// The files that it left.
    fn into_files(self) -> MemFiles {
        let Outcome {
            ending: _,
            output: _,
            notes: _,
            left: _,
            files,
            made: _,
        } = self;
        files
    }
}

/// Calls the tool on what a case gives, behind the calls that come before, each over the files that the one before left. Where one of
/// these did not go well, what it left is the outcome.
pub fn run(alloc: Global, given: &Given) -> Result<Outcome, NoMemory> {
    let mut files = MemFiles::new(alloc, &given.files, &given.failing.files)?;
    for words in given.first.iter() {
        let outcome = call(alloc, given, words, files)?;
        if !outcome.is_well() {
            return Ok(outcome);
        }
        files = outcome.into_files();
    }
    call(alloc, given, &given.words, files)
}

/// Calls the tool with these words over files, with the input that a case gives. An image that was in `made` before has to go.
fn call(
    alloc: Global,
    given: &Given,
    words: &[Name],
    files: MemFiles,
) -> Result<Outcome, NoMemory> {
    let failing = &given.failing;
    let mut files = files;
    let mut input = source(alloc, &given.input, &failing.input, given.most)?;
    let mut output = sink(alloc, &failing.output, given.most)?;
    let mut notes = sink(alloc, &failing.notes, given.most)?;
    let mut made = Some(Image {
        entry: 0,
        segments: Segments::from_vec(Vec::new(alloc)),
    });
    let ending = tool(
        alloc,
        words,
        &mut files,
        &mut input,
        &mut output,
        &mut notes,
        &mut made,
    );
    Ok(Outcome {
        ending,
        output,
        notes,
        left: rest_of(alloc, &mut input)?,
        files,
        made,
    })
}

/// A source of these bytes.
fn source(
    alloc: Global,
    bytes: &[u8],
    fail: &[u64],
    most: Option<u32>,
) -> Result<MemSource, NoMemory> {
    match most {
        Some(most) if 0 < most => MemSource::slow(alloc, bytes, fail, most),
        _ => MemSource::new(alloc, bytes, fail),
    }
}

/// A sink with nothing in it.
fn sink(alloc: Global, fail: &[u64], most: Option<u32>) -> Result<MemSink, NoMemory> {
    match most {
        Some(most) if 0 < most => MemSink::slow(alloc, fail, most),
        _ => MemSink::new(alloc, fail),
    }
}

/// All that is left of a source, past the calls that fail.
fn rest_of(alloc: Global, input: &mut MemSource) -> Result<Vec<u8>, NoMemory> {
    let mut bytes = Vec::new(alloc);
    let mut buffer = [0; 64];
    for _ in 0..u64::MAX {
        match input.read(&mut buffer) {
            Took::Moved(count) => bytes.extend_from_slice(&buffer[..count])?,
            Took::Failed => {}
            Took::End => break,
        }
    }
    Ok(bytes)
}
