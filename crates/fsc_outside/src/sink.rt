//! A stream to write to.

ghost use Rattle.std.specs.Prelude.{◌≡◌, ℕ, ◌≢◌, ◌+◌, ◌^◌, ◌<◌, ◌≤◌, List, Option, length, take, drop};
ghost use Rattle.fsc_outside.specs.Counts.{Rose};
ghost use Rattle.fsc_outside.specs.Streams.{Appends, AppendsFront, AppendsPart, given_of, IfGave};

/// What a sink did with a piece.
#[derive(Clone, Copy, Debug, PartialEq, Eq)]
pub enum Gave {
    /// It took this many bytes from the front of the piece, at least one.
    Moved(usize),
    /// It took nothing, and its count of faults rose.
    Failed,
    /// It took nothing, for want of memory.
    NoMemory,
}

/// What bytes are written to.
pub trait Sink {
    /// All bytes that were written so far, where the sink tells them.
    ghost written: { Self → Option (List ℕ) };

    /// How many writes failed so far. It stands still at 2^64 - 1.
    ghost fault_count: { Self → ℕ };

    /// How many writes failed so far. It never falls, and stands still at 2^64 - 1.
    fn faults(&self) -> u64
        ensures { result ≡ fault_count self.now };

    /// Writes a part from the front of the piece, at least one byte of it, or nothing where it can't.
    fn write(&mut self, piece: &[u8]) -> Gave
        requires { 0 < length piece.now }
        ensures moved { IfGave result (λ n. (0 < n) × (n ≤ length piece.now)) }
        ensures appended { Appends (written self.old) (written self.new) (given_of result piece.now) }
        ensures failed { result ≡ Gave.Failed → Rose (fault_count self.old) (fault_count self.new) }
        ensures counted { fault_count self.old ≤ fault_count self.new };
}

/// How the writing of a whole piece ended.
#[derive(Clone, Copy, Debug, PartialEq, Eq)]
pub enum Wrote {
    /// All of it was written.
    Whole,
    /// A part from its front was written, perhaps none of it and never all, and the count of faults rose.
    Failed,
    /// A part from its front was written, perhaps none of it and never all, and then memory was refused.
    NoMemory,
}

/// Writes all of a piece, in as many calls as the sink takes for it; each turn moves at least one byte or ends. An
/// empty piece makes no call.
pub fn write_whole<O: Sink>(out: &mut O, piece: &[u8]) -> Wrote
    ensures whole { result ≡ Wrote.Whole → Appends (O.written out.old) (O.written out.new) piece.now }
    ensures front { AppendsFront (O.written out.old) (O.written out.new) piece.now }
    ensures part { result ≢ Wrote.Whole → AppendsPart (O.written out.old) (O.written out.new) piece.now }
    ensures failed { result ≡ Wrote.Failed → Rose (O.fault_count out.old) (O.fault_count out.new) }
    ensures counted { O.fault_count out.old ≤ O.fault_count out.new }
{
    let mut rest = piece;
    while !rest.is_empty() {
        match out.write(rest) {
            Gave::Moved(n) => rest = &rest[n..],
            Gave::Failed => return Wrote::Failed,
            Gave::NoMemory => return Wrote::NoMemory,
        }
    }
    Wrote::Whole
}
