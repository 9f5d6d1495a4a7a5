//! The meaning of a program.

use crate::comparing::Differences;
use crate::outcome::{How, Streams};
use crate::program::Asked;
use c_mean::{JoinNo, Meant, Program, join, run_mean};
use c_tree::TypedUnit;
use fat_code::FatUnit;
use fsc_core::{CoreNo, fat_of, library_unit, wanted};
use sqlite_items::Items;
use std::alloc::Global;

/// The fat units of typed ones.
pub fn fat_units(alloc: Global, typed: &[TypedUnit]) -> Result<Vec<FatUnit>, CoreNo> {
    let mut units = Vec::new(alloc);
    for unit in typed {
        units.push(fat_of(alloc, unit)?)?;
    }
    Ok(units)
}

/// Puts the typed units of the library that a program uses behind its own.
fn add_library(alloc: Global, typed: &mut Vec<TypedUnit>, units: &[FatUnit]) -> Result<(), CoreNo> {
    for k in wanted(alloc, units)? {
        let Ok(number) = u32::try_from(typed.len()) else {
            return Err(CoreNo::Misfit);
        };
        if let Some(made) = library_unit(alloc, k, number)? {
            typed.push(made)?;
        }
    }
    Ok(())
}

/// The program of typed units, whose fat units these are, with the units of the library that they use.
fn joined(alloc: Global, typed: Vec<TypedUnit>, units: &[FatUnit]) -> Result<Program, CoreNo> {
    let mut typed = typed;
    add_library(alloc, &mut typed, units)?;
    match join(alloc, Items::from_vec(typed)) {
        Ok(program) => Ok(program),
        Err(JoinNo::Misfit) => Err(CoreNo::Misfit),
        Err(JoinNo::NoMemory) => Err(CoreNo::NoMemory),
    }
}

/// Follows the meaning of a program up to its cost, and, but for a large one, once more up to one less, where its end may not
/// have come.
pub fn by_meaning(
    alloc: Global,
    typed: Vec<TypedUnit>,
    units: &[FatUnit],
    asked: &Asked,
    differences: &mut Differences,
) -> Result<(), CoreNo> {
    let program = joined(alloc, typed, units)?;
    let given = &asked.given;
    let mut streams = Streams::new(alloc, &given.input)?;
    let how = mean(alloc, &program, given.cost, &mut streams);
    differences.compare_run("meaning", &asked.wanted, how, &mut streams)?;
    if !given.is_large {
        let mut again = Streams::new(alloc, &given.input)?;
        let early = mean(alloc, &program, given.cost.saturating_sub(1), &mut again);
        differences.compare_unended("meaning at less", early)?;
    }
    Ok(())
}

/// Follows a meaning up to a cost.
fn mean(alloc: Global, program: &Program, cost: u64, streams: &mut Streams) -> How {
    let input = &mut streams.input;
    match run_mean(alloc, program, cost, input, &mut streams.output) {
        Meant::Ended(end) => How::Ended(end),
        Meant::Cost => How::Bound,
        Meant::ReadFault => How::Fault("read fault"),
        Meant::WriteFault => How::Fault("write fault"),
        Meant::NoMemory => How::Fault("no memory"),
        Meant::Misfit => How::Fault("misfit"),
    }
}
