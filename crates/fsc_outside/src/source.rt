//! A stream to read from.

ghost use Rattle.std.specs.Prelude.{◌≡◌, ℕ, ◌+◌, ◌^◌, ◌<◌, ◌≤◌, List, Option, length};
ghost use Rattle.fsc_outside.specs.Counts.{Rose};
ghost use Rattle.fsc_outside.specs.Streams.{Takes, AtEnd, taken_of, IfTook};

/// What a source did with a buffer.
#[derive(Clone, Copy, Debug, PartialEq, Eq)]
pub enum Took {
    /// The buffer begins with this many bytes, at least one, that were taken from the source.
    Moved(usize),
    /// Nothing is left.
    End,
    /// Nothing was taken, and the count of faults rose.
    Failed,
}

/// What bytes are read from.
pub trait Source {
    /// The bytes that are left, where the source tells them.
    ghost left: { Self → Option (List ℕ) };

    /// How many reads failed so far. It stands still at 2^64 - 1.
    ghost fault_count: { Self → ℕ };

    /// How many reads failed so far. It never falls, and stands still at 2^64 - 1.
    fn faults(&self) -> u64
        ensures { result ≡ fault_count self.now };

    /// Takes bytes from the source into the front of the buffer, at least one, or none at the end.
    fn read(&mut self, buffer: &mut [u8]) -> Took
        requires { 0 < length buffer.old }
        ensures moved { IfTook result (λ n. (0 < n) × (n ≤ length buffer.new)) }
        ensures taken { Takes (left self.old) (left self.new) (taken_of result buffer.new) }
        ensures end { result ≡ Took.End → AtEnd (left self.old) }
        ensures failed { result ≡ Took.Failed → Rose (fault_count self.old) (fault_count self.new) }
        ensures counted { fault_count self.old ≤ fault_count self.new };
}
