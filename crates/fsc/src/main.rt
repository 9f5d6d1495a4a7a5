//! `fsc`: a memory-safe C90 compiler whose images run as C over blocks of bytes says: `tool` of `fsc_tool` has what each
//! command does.
#![tactic(auto)]

mod arguments;

use fsc_outside::{DiskFiles, InputSource, OutputSink};
use fsc_tool::{Ending, report, status, tool};
use std::process::ExitCode;

/// Hands the words, the files and the streams of the process to the tool, and ends with its status.
fn main(rt: HostRuntime) -> ExitCode {
    let alloc = rt.alloc();
    let mut files = DiskFiles::new(&rt, alloc);
    let mut input = InputSource::new(rt.stdin());
    let mut out = OutputSink::new(rt.stdout());
    let mut notes = OutputSink::new(rt.stderr());
    let mut made = None;
    let ending = match arguments::words(alloc, &rt) {
        Ok(words) => tool(
            alloc, &words, &mut files, &mut input, &mut out, &mut notes, &mut made,
        ),
        Err(_) => report(alloc, &mut notes, Ending::NoMemory, None, None),
    };
    drop(made);
    ExitCode::from(status(&ending))
}
