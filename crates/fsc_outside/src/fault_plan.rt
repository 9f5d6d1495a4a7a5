//! Which calls of an object in memory fail, by their numbers.

ghost use Rattle.std.specs.Prelude.{◌≡◌, ◌≤◌, IfOk};
ghost use Rattle.fsc_outside.specs.Plan.{Plan, unused, fails_next, with_call, with_fault};

use fsc_base::NoMemory;
use std::alloc::Global;
use std::marker::Model;

/// The numbers of the calls that fail, with counts of the calls and of those that failed. Contracts see it as a `Plan`
/// of `specs/`. After 2^64 - 1 calls each further one has that number.
#[derive(Debug, Drop)]
pub struct FaultPlan {
    fail: Vec<u64>,
    made: u64,
    faults: u64,
}

impl Model for FaultPlan {
    ghost Value = { Plan };

    ghost view = { λ p. record { fail = p.fail.items; made = p.made; faults = p.faults } };
}

impl FaultPlan {
    /// A plan by which the calls with these numbers fail, counted from 1. Refused only for want of memory.
    pub fn new(alloc: Global, fail: &[u64]) -> Result<FaultPlan, NoMemory>
        ensures { IfOk result (λ plan. plan ≡ unused fail.now) }
    {
        Ok(FaultPlan {
            fail: Vec::from_slice(alloc, fail)?,
            made: 0,
            faults: 0,
        })
    }

    /// Counts a call, and says whether it fails.
    pub fn begin_call(&mut self) -> bool
        ensures fails { result ≡ fails_next self.old }
        ensures counted { self.new ≡ with_call self.old }
    {
        self.made = self.made.saturating_add(1);
        self.fail.contains(&self.made)
    }

    /// Counts a fault.
    pub fn count_fault(&mut self)
        ensures counted { self.new ≡ with_fault self.old }
        ensures never_falls { self.old.faults ≤ self.new.faults }
    {
        self.faults = self.faults.saturating_add(1);
    }

    /// How many calls failed so far.
    pub fn faults(&self) -> u64
        ensures { result ≡ self.now.faults }
    {
        self.faults
    }
}
