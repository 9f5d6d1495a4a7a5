//! A sink over a writer of the system.

ghost use Rattle.std.specs.Prelude.{◌≡◌, ◌≢◌, ℕ, ◌<◌, ◌≤◌, None, length};
ghost use Rattle.std.specs.Io.{WritesAtMost};
ghost use Rattle.fsc_outside.specs.Counts.{Rose, faults_after_gave};
ghost use Rattle.fsc_outside.specs.Streams.{Appends, given_of, IfGave};

use crate::sink::{Gave, Sink};
use std::io;
use std::io::{ErrorKind, Write};
use std::marker::Model;

/// A sink over a writer, as standard output. It doesn't tell what was written. A write that takes no bytes is a fault,
/// and so is an error; a call that a signal interrupts is made again. It flushes nothing. Contracts see it as its
/// count of faults.
#[derive(Drop)]
pub struct OutputSink<W> {
    writer: W,
    faults: u64,
}

impl<W> Model for OutputSink<W> {
    ghost Value = { ℕ };

    ghost view = { λ s. s.faults };
}

impl<W: Write> OutputSink<W> {
    /// A sink into the writer.
    pub fn new(writer: W) -> OutputSink<W>
        ensures { result ≡ 0 }
    {
        OutputSink { writer, faults: 0 }
    }
}

impl<W: Write> Sink for OutputSink<W> {
    ghost written = { λ _. None };

    ghost fault_count = { λ s. s };

    fn faults(&self) -> u64 {
        self.faults
    }

    fn write(&mut self, piece: &[u8]) -> Gave
        requires { 0 < length piece.now }
        // As of every sink.
        ensures moved { IfGave result (λ n. (0 < n) × (n ≤ length piece.now)) }
        ensures appended { Appends None None (given_of result piece.now) }
        ensures failed { result ≡ Gave.Failed → Rose self.old self.new }
        ensures counted { self.old ≤ self.new }

        // Exactly.
        ensures after { self.new ≡ faults_after_gave self.old result }
        ensures never_refused { result ≢ Gave.NoMemory }
    {
        match write_once(&mut self.writer, piece) {
            Ok(n) if n > 0 => Gave::Moved(n),
            _ => {
                self.faults = self.faults.saturating_add(1);
                Gave::Failed
            }
        }
    }
}

/// One write, made again where a signal interrupts it, up to 2^64 - 1 times.
fn write_once<W: Write>(writer: &mut W, piece: &[u8]) -> io::Result<usize>
    ensures { WritesAtMost result piece.now }
{
    for _ in 0..u64::MAX {
        match writer.write(piece) {
            Ok(n) => return Ok(n),
            Err(error) if error.kind() == ErrorKind::Interrupted => {}
            Err(error) => return Err(error),
        }
    }
    Err(io::Error::from(ErrorKind::Interrupted))
}
