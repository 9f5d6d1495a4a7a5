//! A source of bytes that the program holds.

ghost use Rattle.std.specs.Prelude.{◌≡◌, ◌<◌, ◌≤◌, Some, length, drop, IfOk};
ghost use Rattle.fsc_outside.specs.Counts.{Rose};
ghost use Rattle.fsc_outside.specs.Memory.{SourceState, new_source, took_by, after_took, filled_by};
ghost use Rattle.fsc_outside.specs.Streams.{Takes, AtEnd, taken_of, IfTook};

use crate::fault_plan::FaultPlan;
use crate::source::{Source, Took};
use fsc_base::NoMemory;
use std::alloc::Global;
use std::marker::Model;

/// A source of bytes that the program holds. It tells what is left, and calls fail as its plan says. Contracts see it
/// as a `SourceState` of `specs/`.
#[derive(Debug, Drop)]
pub struct MemSource {
    bytes: Vec<u8>,
    taken: usize,
    most: usize,
    plan: FaultPlan,
}

impl Model for MemSource {
    ghost Value = { SourceState };

    ghost view = { λ s. record { left = drop s.taken s.bytes.items; most = s.most; plan = s.plan } };

    ghost invariant = { λ s. (s.taken ≤ length s.bytes.items) × (0 < s.most) };
}

impl MemSource {
    /// A source of a copy of `bytes`, whose calls with the numbers in `fail` fail, counted from 1. Each other call
    /// moves as many bytes as fit. Refused only for want of memory.
    pub fn new(alloc: Global, bytes: &[u8], fail: &[u64]) -> Result<MemSource, NoMemory>
        ensures { IfOk result (λ source. source ≡ new_source bytes.now usize.MAX fail.now) }
    {
        Ok(MemSource {
            bytes: Vec::from_slice(alloc, bytes)?,
            taken: 0,
            most: usize::MAX,
            plan: FaultPlan::new(alloc, fail)?,
        })
    }

    /// The same, where a call moves at most `most` bytes.
    pub fn slow(alloc: Global, bytes: &[u8], fail: &[u64], most: u32) -> Result<MemSource, NoMemory>
        requires { 0 < most }
        ensures { IfOk result (λ source. source ≡ new_source bytes.now most fail.now) }
    {
        Ok(MemSource {
            bytes: Vec::from_slice(alloc, bytes)?,
            taken: 0,
            most: most as usize,
            plan: FaultPlan::new(alloc, fail)?,
        })
    }
}

impl Source for MemSource {
    ghost left = { λ s. Some s.left };

    ghost fault_count = { λ s. s.plan.faults };

    fn faults(&self) -> u64 {
        self.plan.faults()
    }

    fn read(&mut self, buffer: &mut [u8]) -> Took
        requires { 0 < length buffer.old }
        // As of every source.
        ensures moved { IfTook result (λ n. (0 < n) × (n ≤ length buffer.new)) }
        ensures taken { Takes (Some self.old.left) (Some self.new.left) (taken_of result buffer.new) }
        ensures end { result ≡ Took.End → AtEnd (Some self.old.left) }
        ensures failed { result ≡ Took.Failed → Rose self.old.plan.faults self.new.plan.faults }
        ensures counted { self.old.plan.faults ≤ self.new.plan.faults }

        // Exactly.
        ensures took { result ≡ took_by self.old (length buffer.old) }
        ensures after { self.new ≡ after_took self.old result }
        ensures filled { buffer.new ≡ filled_by result self.old.left buffer.old }
    {
        if self.plan.begin_call() {
            self.plan.count_fault();
            return Took::Failed;
        }
        let left = &self.bytes[self.taken..];
        if left.is_empty() {
            return Took::End;
        }
        let count = buffer.len().min(self.most.min(left.len()));
        buffer[..count].copy_from_slice(&left[..count]);
        self.taken += count;
        Took::Moved(count)
    }
}
