//! A sink into memory.

ghost use Rattle.std.specs.Prelude.{◌≡◌, ◌⊎◌, ◌<◌, ◌≤◌, Some, length, IsTrue, IfOk};
ghost use Rattle.fsc_outside.specs.Counts.{Rose};
ghost use Rattle.fsc_outside.specs.Memory.{SinkState, new_sink, gave_by, after_gave};
ghost use Rattle.fsc_outside.specs.Plan.{fails_next};
ghost use Rattle.fsc_outside.specs.Streams.{Appends, given_of, IfGave};

use crate::fault_plan::FaultPlan;
use crate::sink::{Gave, Sink};
use fsc_base::NoMemory;
use std::alloc::Global;
use std::marker::Model;

/// A sink into memory. It tells what was written, and calls fail as its plan says. Contracts see it as a `SinkState`
/// of `specs/`.
#[derive(Debug, Drop)]
pub struct MemSink {
    bytes: Vec<u8>,
    most: usize,
    plan: FaultPlan,
}

impl Model for MemSink {
    ghost Value = { SinkState };

    ghost view = { λ s. record { written = s.bytes.items; most = s.most; plan = s.plan } };

    ghost invariant = { λ s. 0 < s.most };
}

impl MemSink {
    /// A sink with nothing in it, whose calls with the numbers in `fail` fail, counted from 1. Each other call writes
    /// the whole piece, or nothing where memory is refused. Refused only for want of memory.
    pub fn new(alloc: Global, fail: &[u64]) -> Result<MemSink, NoMemory>
        ensures { IfOk result (λ sink. sink ≡ new_sink usize.MAX fail.now) }
    {
        Ok(MemSink {
            bytes: Vec::new(alloc),
            most: usize::MAX,
            plan: FaultPlan::new(alloc, fail)?,
        })
    }

    /// The same, where a call writes at most `most` bytes.
    pub fn slow(alloc: Global, fail: &[u64], most: u32) -> Result<MemSink, NoMemory>
        requires { 0 < most }
        ensures { IfOk result (λ sink. sink ≡ new_sink most fail.now) }
    {
        Ok(MemSink {
            bytes: Vec::new(alloc),
            most: most as usize,
            plan: FaultPlan::new(alloc, fail)?,
        })
    }

    /// All bytes that were written so far.
    pub fn bytes(&self) -> &[u8]
        ensures { result.now ≡ self.now.written }
    {
        self.bytes.as_slice()
    }
}

impl Sink for MemSink {
    ghost written = { λ s. Some s.written };

    ghost fault_count = { λ s. s.plan.faults };

    fn faults(&self) -> u64 {
        self.plan.faults()
    }

    fn write(&mut self, piece: &[u8]) -> Gave
        requires { 0 < length piece.now }
        // As of every sink.
        ensures moved { IfGave result (λ n. (0 < n) × (n ≤ length piece.now)) }
        ensures appended { Appends (Some self.old.written) (Some self.new.written) (given_of result piece.now) }
        ensures failed { result ≡ Gave.Failed → Rose self.old.plan.faults self.new.plan.faults }
        ensures counted { self.old.plan.faults ≤ self.new.plan.faults }

        // Exactly, where memory suffices.
        ensures gave { (result ≡ gave_by self.old (length piece.now)) ⊎ (result ≡ Gave.NoMemory) }
        ensures fails { IsTrue (fails_next self.old.plan) → result ≡ Gave.Failed }
        ensures after { self.new ≡ after_gave self.old piece.now result }
    {
        if self.plan.begin_call() {
            self.plan.count_fault();
            return Gave::Failed;
        }
        let count = piece.len().min(self.most);
        match self.bytes.extend_from_slice(&piece[..count]) {
            Ok(()) => Gave::Moved(count),
            Err(_) => Gave::NoMemory,
        }
    }
}
