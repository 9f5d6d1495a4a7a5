//! Streams in memory.

use crate::told::{Told, tell, tell_count};
use case_table::{NoStep, bytes_of_text, index_of, number_of, text_of};
use fsc_outside::{Gave, MemSink, MemSource, Sink, Source, Took, Wrote, write_whole};
use std::alloc::Global;

/// The input and the output of a case.
#[derive(Drop)]
pub struct Streams {
    pub input: MemSource,
    pub out: MemSink,
}

/// The numbers of calls, as words.
pub fn calls_of(alloc: Global, words: &[&str]) -> Result<Vec<u64>, NoStep> {
    let mut calls = Vec::new(alloc);
    for word in words {
        calls.push(index_of(word)?)?;
    }
    Ok(calls)
}

/// How the writing of a whole piece ended.
pub fn name_of(wrote: Wrote) -> &'static str {
    match wrote {
        Wrote::Whole => "whole",
        Wrote::Failed => "failed",
        Wrote::NoMemory => "no memory",
    }
}

/// A source of these bytes: all at once, or at most so many a call.
fn source_of(alloc: Global, bytes: &[u8], options: &[&str]) -> Result<MemSource, NoStep> {
    match options {
        ["most", most, "fail", calls @ ..] => slow_source(alloc, bytes, most, calls),
        ["most", most] => slow_source(alloc, bytes, most, &[]),
        ["fail", calls @ ..] => Ok(MemSource::new(alloc, bytes, &calls_of(alloc, calls)?)?),
        [] => Ok(MemSource::new(alloc, bytes, &[])?),
        _ => Err(NoStep::Malformed("neither `most` nor `fail`")),
    }
}

/// A source of these bytes that moves at most so many a call.
fn slow_source(
    alloc: Global,
    bytes: &[u8],
    most: &str,
    calls: &[&str],
) -> Result<MemSource, NoStep> {
    let most = number_of(most)?;
    if most == 0 {
        return Err(NoStep::Malformed("at most 0 bytes a call"));
    }
    Ok(MemSource::slow(alloc, bytes, &calls_of(alloc, calls)?, most)?)
}

/// A sink: all at once, or at most so many bytes a call.
fn sink_of(alloc: Global, options: &[&str]) -> Result<MemSink, NoStep> {
    match options {
        ["most", most, "fail", calls @ ..] => slow_sink(alloc, most, calls),
        ["most", most] => slow_sink(alloc, most, &[]),
        ["fail", calls @ ..] => Ok(MemSink::new(alloc, &calls_of(alloc, calls)?)?),
        [] => Ok(MemSink::new(alloc, &[])?),
        _ => Err(NoStep::Malformed("neither `most` nor `fail`")),
    }
}

/// A sink that takes at most so many bytes a call.
fn slow_sink(alloc: Global, most: &str, calls: &[&str]) -> Result<MemSink, NoStep> {
    let most = number_of(most)?;
    if most == 0 {
        return Err(NoStep::Malformed("at most 0 bytes a call"));
    }
    Ok(MemSink::slow(alloc, &calls_of(alloc, calls)?, most)?)
}

impl Streams {
    /// An empty input, and an output that takes all.
    pub fn new(alloc: Global) -> Result<Streams, NoStep> {
        Ok(Streams {
            input: MemSource::new(alloc, &[], &[])?,
            out: MemSink::new(alloc, &[])?,
        })
    }

    /// One read of at most so many bytes.
    fn take(&mut self, alloc: Global, count: &str) -> Told {
        let mut buffer = vec![in alloc; b'-'; number_of(count)? as usize]?;
        if buffer.is_empty() {
            return Err(NoStep::Malformed("a read of no bytes"));
        }
        match self.input.read(&mut buffer) {
            Took::Moved(n) => {
                let text = text_of(alloc, &buffer)?;
                Ok(Some(format!(in alloc; "{n} {text}")?))
            }
            Took::End => tell(alloc, "end"),
            Took::Failed => tell(alloc, "failed"),
        }
    }

    /// One write of a piece.
    fn put(&mut self, alloc: Global, text: &str) -> Told {
        let piece = bytes_of_text(alloc, text)?;
        if piece.is_empty() {
            return Err(NoStep::Malformed("a write of no bytes"));
        }
        match self.out.write(&piece) {
            Gave::Moved(n) => tell_count(alloc, n as u64),
            Gave::Failed => tell(alloc, "failed"),
            Gave::NoMemory => Err(NoStep::NoMemory),
        }
    }

    /// Does a step of streams.
    pub fn step(&mut self, alloc: Global, words: &[&str]) -> Told {
        match words {
            ["input", text, options @ ..] => {
                self.input = source_of(alloc, &bytes_of_text(alloc, text)?, options)?;
                tell(alloc, "ok")
            }
            ["output", options @ ..] => {
                self.out = sink_of(alloc, options)?;
                tell(alloc, "ok")
            }
            ["take", count] => self.take(alloc, count),
            ["put", text] => self.put(alloc, text),
            ["put_all", text] => {
                let piece = bytes_of_text(alloc, text)?;
                tell(alloc, name_of(write_whole(&mut self.out, &piece)))
            }
            ["written"] => Ok(Some(text_of(alloc, self.out.bytes())?)),
            ["input_faults"] => tell_count(alloc, self.input.faults()),
            ["output_faults"] => tell_count(alloc, self.out.faults()),
            _ => Ok(None),
        }
    }
}
