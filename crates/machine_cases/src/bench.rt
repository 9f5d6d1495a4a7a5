//! What a case of the machine works on.

use crate::draft::Draft;
use crate::elf::ElfFile;
use crate::files::FileShelf;
use crate::memory::Guests;
use crate::runs::Runs;
use crate::streams::Streams;
use crate::{arithmetic, assembly, names};
use case_table::{Bench, NoStep};
use std::alloc::Global;

/// All that the steps of a case are done on.
#[derive(Drop)]
pub struct MachineBench {
    draft: Draft,
    elf: ElfFile,
    guests: Guests,
    runs: Runs,
    streams: Streams,
    files: FileShelf,
}

impl MachineBench {
    /// Does a step of an image, of what is made from one, or of what is outside it.
    fn part_step(&mut self, alloc: Global, words: &[&str]) -> Result<Option<String>, NoStep> {
        if let Some(answer) = self.draft.step(alloc, words)? {
            return Ok(Some(answer));
        }
        if let Some(answer) = self.elf.step(alloc, words, &mut self.draft)? {
            return Ok(Some(answer));
        }
        if let Some(answer) = self
            .guests
            .step(alloc, words, &self.draft, &mut self.streams)?
        {
            return Ok(Some(answer));
        }
        if let Some(answer) = self
            .runs
            .step(alloc, words, &self.draft, &mut self.streams)?
        {
            return Ok(Some(answer));
        }
        if let Some(answer) = self.streams.step(alloc, words)? {
            return Ok(Some(answer));
        }
        self.files.step(alloc, words)
    }
}

impl Bench for MachineBench {
    fn new(alloc: Global) -> Result<MachineBench, NoStep> {
        Ok(MachineBench {
            draft: Draft::new(alloc),
            elf: ElfFile::new(alloc),
            guests: Guests::new(alloc),
            runs: Runs::new(alloc),
            streams: Streams::new(alloc)?,
            files: FileShelf::new(alloc),
        })
    }

    fn step(&mut self, alloc: Global, words: &[&str]) -> Result<String, NoStep> {
        if let Some(answer) = assembly::step(alloc, words)? {
            return Ok(answer);
        }
        if let Some(answer) = arithmetic::step(alloc, words)? {
            return Ok(answer);
        }
        if let Some(answer) = names::step(alloc, words)? {
            return Ok(answer);
        }
        match self.part_step(alloc, words)? {
            Some(answer) => Ok(answer),
            None => Err(NoStep::Malformed("no such step")),
        }
    }
}
