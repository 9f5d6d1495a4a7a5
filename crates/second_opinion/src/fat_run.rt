//! The run of a program's fat code.

use crate::comparing::Differences;
use crate::fat_memory::fat_objects;
use crate::outcome::{How, Streams};
use crate::program::Asked;
use fat_code::ProgramParts;
use fat_machine::{FatMachine, FatStep, MachineNo};
use fsc_core::CoreNo;
use std::alloc::Global;

/// The bytes of a small region.
const SMALL: u32 = 0x0004_0000;

/// The bytes of a whole region.
const LARGE: u32 = 0x2000_0000;

/// How a machine stopped, and how many steps it did.
#[derive(Clone, Copy)]
struct Gone {
    how: How,
    steps: u64,
}

/// Runs the fat code of a program.
pub fn by_fat_code(
    alloc: Global,
    program: &ProgramParts,
    asked: &Asked,
    differences: &mut Differences,
) -> Result<(), CoreNo> {
    let mut machine = machine_of(alloc, program, asked.given.is_large)?;
    let mut streams = Streams::new(alloc, &asked.given.input)?;
    let bound = asked.given.cost.saturating_mul(16).saturating_add(15);
    let gone = go(&mut machine, bound, &mut streams);
    differences.compare_run("fat code", &asked.wanted, gone.how, &mut streams)?;
    if !gone.how.is_bound() {
        differences.compare_count("steps", gone.steps, asked.wanted.steps)?;
        differences.compare_count("away", machine.away(), asked.wanted.away)?;
        let live = fat_objects(alloc, &machine)?;
        differences.compare_live("fat code", &live, &asked.wanted)?;
    }
    Ok(())
}

/// The machine of a program.
fn machine_of<'p>(
    alloc: Global,
    program: &'p ProgramParts,
    is_large: bool,
) -> Result<FatMachine<'p>, CoreNo> {
    let bytes = if is_large { LARGE } else { SMALL };
    match FatMachine::with_region(alloc, program, bytes) {
        Ok(machine) => Ok(machine),
        Err(MachineNo::Misfit) => Err(CoreNo::Misfit),
        Err(MachineNo::NoMemory) => Err(CoreNo::NoMemory),
    }
}

/// Runs a machine, at most so many steps.
fn go(machine: &mut FatMachine<'_>, bound: u64, streams: &mut Streams) -> Gone {
    let mut steps = 0_u64;
    for _ in 0..bound {
        steps = steps.saturating_add(1);
        if let Some(how) = stopped(machine, streams) {
            return Gone { how, steps };
        }
    }
    Gone {
        how: How::Bound,
        steps,
    }
}

/// Does a step. How the machine stops, if it does.
fn stopped(machine: &mut FatMachine<'_>, streams: &mut Streams) -> Option<How> {
    match machine.step(&mut streams.input, &mut streams.output) {
        FatStep::Next => None,
        FatStep::Ended(end) => Some(How::Ended(end)),
        FatStep::ReadFault => Some(How::Fault("read fault")),
        FatStep::WriteFault => Some(How::Fault("write fault")),
        FatStep::NoMemory => Some(How::Fault("no memory")),
        FatStep::Misfit => Some(How::Fault("misfit")),
    }
}
