//! What differs from what was wanted.

use crate::live::Objects;
use crate::outcome::{How, NONE, Streams, told};
use crate::wanted::Wanted;
use c_link::LinkFault;
use fsc_core::CoreNo;
use std::alloc::{AllocError, Global};

/// How many bytes of a difference are shown.
const MOST_SHOWN: usize = 200;

/// What differs so far, in words.
#[derive(Drop)]
pub struct Differences {
    alloc: Global,
    text: String,
}

impl Differences {
    /// Nothing differs.
    pub fn new(alloc: Global) -> Differences {
        Differences {
            alloc,
            text: String::new(alloc),
        }
    }

    /// The text.
    pub fn into_text(self) -> String {
        let Differences { alloc: _, text } = self;
        text
    }

    /// Notes that the units are refused, but for a rule of linking that is wanted.
    pub fn refused(&mut self, no: &CoreNo, wanted: &Wanted) -> Result<(), AllocError> {
        match no {
            CoreNo::Link(fault) => self.compare_linking(fault, wanted),
            _ => self.text.push_str(reason(no)),
        }
    }

    /// Notes where the units break another rule of linking.
    fn compare_linking(&mut self, fault: &LinkFault, wanted: &Wanted) -> Result<(), AllocError> {
        let end = unlinked(self.alloc, fault)?;
        self.compare("linking", "end", end.as_bytes(), wanted.end.as_bytes())
    }

    /// Notes where a value of a run is another than was wanted.
    fn compare(
        &mut self,
        run: &str,
        what: &str,
        found: &[u8],
        wanted: &[u8],
    ) -> Result<(), AllocError> {
        if found == wanted {
            return Ok(());
        }
        let found = shown(self.alloc, found)?;
        let wanted = shown(self.alloc, wanted)?;
        write!(self.text, " {run} {what} {found:?} and not {wanted:?};")
    }

    /// Notes where a count is another.
    pub fn compare_count(&mut self, what: &str, found: u64, wanted: u64) -> Result<(), AllocError> {
        if found == wanted {
            return Ok(());
        }
        write!(self.text, " {what} {found} and not {wanted};")
    }

    /// Notes where a run has ended.
    pub fn compare_unended(&mut self, run: &str, how: How) -> Result<(), AllocError> {
        let end = told(self.alloc, how)?;
        self.compare(run, "end", end.as_bytes(), NONE.as_bytes())
    }

    /// Notes where the end of a run, its output or what is left of its input differs. A run that has not ended may have written
    /// more, and taken more.
    pub fn compare_run(
        &mut self,
        run: &str,
        wanted: &Wanted,
        how: How,
        streams: &mut Streams,
    ) -> Result<(), AllocError> {
        let end = told(self.alloc, how)?;
        self.compare(run, "end", end.as_bytes(), wanted.end.as_bytes())?;
        let output = streams.output.bytes();
        if how.is_bound() {
            return self.compare_front(run, output, &wanted.output);
        }
        self.compare(run, "output", output, &wanted.output)?;
        self.compare_count(run, streams.left(), wanted.left)
    }

    /// Notes where an output does not begin with these bytes.
    fn compare_front(&mut self, run: &str, output: &[u8], wanted: &[u8]) -> Result<(), AllocError> {
        let (front, _) = output.split_at(output.len().min(wanted.len()));
        self.compare(run, "output", front, wanted)
    }

    /// Notes where other objects are alive at the end of a run, or hold something else.
    pub fn compare_live(
        &mut self,
        run: &str,
        found: &Objects,
        wanted: &Wanted,
    ) -> Result<(), AllocError> {
        let found = found.text();
        self.compare(run, "live", found.as_bytes(), wanted.live.as_bytes())
    }
}

/// The beginning of some bytes as a text.
fn shown(alloc: Global, bytes: &[u8]) -> Result<String, AllocError> {
    let (front, _) = bytes.split_at(bytes.len().min(MOST_SHOWN));
    String::from_utf8_lossy(alloc, front)
}

/// A broken rule of linking in words, with its name.
fn unlinked(alloc: Global, fault: &LinkFault) -> Result<String, AllocError> {
    let rule = String::from_utf8_lossy(alloc, &fault.rule.code())?;
    let name = String::from_utf8_lossy(alloc, fault.name.as_slice())?;
    format!(in alloc; "link {rule} {name}")
}

/// Why units are refused, in words.
fn reason(no: &CoreNo) -> &'static str {
    match no {
        CoreNo::Broken(..) => " a rule is broken;",
        CoreNo::Missing(_) => " a unit is missing;",
        CoreNo::FileFault(_) => " a file can't be read;",
        CoreNo::Link(_) => " a rule of linking is broken;",
        CoreNo::Misfit => " misfit;",
        CoreNo::NoMemory => " no memory;",
    }
}
