//! A source over a reader of the system.

ghost use Rattle.std.specs.Prelude.{◌≡◌, ℕ, ◌<◌, ◌≤◌, None, length};
ghost use Rattle.std.specs.Io.{ReadsAtMost};
ghost use Rattle.fsc_outside.specs.Counts.{Rose, faults_after_took};
ghost use Rattle.fsc_outside.specs.Streams.{Takes, AtEnd, taken_of, IfTook};

use crate::source::{Source, Took};
use std::io;
use std::io::{ErrorKind, Read};
use std::marker::Model;

/// A source over a reader, as standard input. It doesn't tell what is left. A read of no bytes is the end, an error is
/// a fault, and a call that a signal interrupts is made again. Contracts see it as its count of faults.
#[derive(Drop)]
pub struct InputSource<R> {
    reader: R,
    faults: u64,
}

impl<R> Model for InputSource<R> {
    ghost Value = { ℕ };

    ghost view = { λ s. s.faults };
}

impl<R: Read> InputSource<R> {
    /// A source of what the reader gives.
    pub fn new(reader: R) -> InputSource<R>
        ensures { result ≡ 0 }
    {
        InputSource { reader, faults: 0 }
    }
}

impl<R: Read> Source for InputSource<R> {
    ghost left = { λ _. None };

    ghost fault_count = { λ s. s };

    fn faults(&self) -> u64 {
        self.faults
    }

    fn read(&mut self, buffer: &mut [u8]) -> Took
        requires { 0 < length buffer.old }
        // As of every source.
        ensures moved { IfTook result (λ n. (0 < n) × (n ≤ length buffer.new)) }
        ensures taken { Takes None None (taken_of result buffer.new) }
        ensures end { result ≡ Took.End → AtEnd None }
        ensures failed { result ≡ Took.Failed → Rose self.old self.new }
        ensures counted { self.old ≤ self.new }

        // Exactly.
        ensures after { self.new ≡ faults_after_took self.old result }
    {
        match read_once(&mut self.reader, buffer) {
            Ok(0) => Took::End,
            Ok(n) => Took::Moved(n),
            Err(_) => {
                self.faults = self.faults.saturating_add(1);
                Took::Failed
            }
        }
    }
}

/// One read, made again where a signal interrupts it, up to 2^64 - 1 times.
fn read_once<R: Read>(reader: &mut R, buffer: &mut [u8]) -> io::Result<usize>
    ensures { ReadsAtMost result buffer.new }
{
    for _ in 0..u64::MAX {
        match reader.read(buffer) {
            Ok(n) => return Ok(n),
            Err(error) if error.kind() == ErrorKind::Interrupted => {}
            Err(error) => return Err(error),
        }
    }
    Err(io::Error::from(ErrorKind::Interrupted))
}
