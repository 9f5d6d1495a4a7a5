//! The units of a program, typed, where linking refuses none.

ghost use Rattle.std.specs.Prelude.{IfErr};
ghost use Rattle.fsc_core.specs.Refusing.{RefusesUnits};

use c_mean::{JoinNo, Program, join};
use c_tree::TypedUnit;
use fat_code::FatUnit;
use fsc_core::{CoreNo, fat_of, library_unit, linked, wanted};
use sqlite_items::Items;
use std::alloc::Global;

/// The fat units of typed ones.
fn fat_units(alloc: Global, typed: &[TypedUnit]) -> Result<Vec<FatUnit>, CoreNo>
    ensures refused { IfErr result RefusesUnits }
{
    let mut units = Vec::new(alloc);
    for unit in typed {
        units.push(fat_of(alloc, unit)?)?;
    }
    Ok(units)
}

/// The typed units of the library with these numbers, behind `before` units of the program.
fn library(alloc: Global, numbers: &[u32], before: u32) -> Result<Vec<TypedUnit>, CoreNo>
    ensures refused { IfErr result RefusesUnits }
{
    let mut units = Vec::new(alloc);
    let mut unit = before;
    for k in numbers {
        if let Some(made) = library_unit(alloc, *k, unit)? {
            units.push(made)?;
        }
        unit = unit.saturating_add(1);
    }
    Ok(units)
}

/// The units of the library that these use, where linking refuses none of them together. The fat units are made to be linked alone.
fn added(alloc: Global, typed: &[TypedUnit]) -> Result<Vec<TypedUnit>, CoreNo>
    ensures refused { IfErr result RefusesUnits }
{
    let units = fat_units(alloc, typed)?;
    let numbers = wanted(alloc, &units)?;
    let Ok(before) = u32::try_from(units.len()) else {
        return Err(CoreNo::Misfit);
    };
    let library = library(alloc, &numbers, before)?;
    let others = fat_units(alloc, &library)?;
    let _ = linked(alloc, &units, &others)?;
    Ok(library)
}

/// The program of typed units, joined as it is linked.
fn joined(alloc: Global, units: Vec<TypedUnit>) -> Result<Program, CoreNo>
    ensures refused { IfErr result RefusesUnits }
{
    match join(alloc, Items::from_vec(units)) {
        Ok(program) => Ok(program),
        Err(JoinNo::Misfit) => Err(CoreNo::Misfit),
        Err(JoinNo::NoMemory) => Err(CoreNo::NoMemory),
    }
}

/// The program of typed units, in link order, with the units of the library that they use. Refused as `program_of` of `fsc_core`.
pub(crate) fn program_of(alloc: Global, typed: Vec<TypedUnit>) -> Result<Program, CoreNo>
    ensures refused { IfErr result RefusesUnits }
{
    let mut library = added(alloc, &typed)?;
    let mut units = typed;
    units.append(&mut library)?;
    joined(alloc, units)
}
