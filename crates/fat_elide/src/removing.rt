//! Programs without repeated conversions.

use crate::known::Known;
use fat_code::{CheckNo, FatFunction, FatUnit, Op, ProgramParts};
use fsc_base::NoMemory;
use sqlite_items::Items;
use std::alloc::{AllocError, AllocFailed, Global};

/// Why a program is not answered.
#[derive(Clone, Copy, Debug, PartialEq, Eq)]
pub enum ElideNo {
    /// A jump of it names no operation, or what is left of a unit has a fault.
    Misfit,
    /// No memory was left.
    NoMemory,
}

impl From<NoMemory> for ElideNo {
    fn from(_refusal: NoMemory) -> ElideNo {
        ElideNo::NoMemory
    }
}

impl From<AllocError> for ElideNo {
    fn from(_error: AllocError) -> ElideNo {
        ElideNo::NoMemory
    }
}

impl<T: Drop> From<AllocFailed<T>> for ElideNo {
    fn from(_error: AllocFailed<T>) -> ElideNo {
        ElideNo::NoMemory
    }
}

/// The operations of a function that are kept, with their jumps as they were, and for each operation that there was the index of the
/// first kept one that stands there or behind it.
#[derive(Drop)]
struct Kept {
    ops: Vec<Op>,
    places: Vec<u32>,
}

/// An index of an operation. Refused where it has more than 32 bits: no memory holds as many.
fn place_of(index: usize) -> Result<u32, NoMemory> {
    match u32::try_from(index) {
        Ok(place) => Ok(place),
        Err(_) => Err(NoMemory),
    }
}

impl Kept {
    /// One more operation.
    fn add(&mut self, known: &mut Known, op: Op) -> Result<(), ElideNo> {
        let place = place_of(self.ops.len())?;
        self.places.push(place)?;
        if !known.is_repeated(op) {
            self.ops.push(op)?;
            known.keep(op);
        }
        Ok(())
    }
}

/// The operations that are kept of these.
fn kept_of(alloc: Global, ops: &[Op]) -> Result<Kept, ElideNo> {
    let mut kept = Kept {
        ops: Vec::new(alloc),
        places: Vec::new(alloc),
    };
    let mut known = Known::new();
    for op in ops {
        kept.add(&mut known, *op)?;
    }
    Ok(kept)
}

/// Where an operation stands that stood elsewhere.
fn moved(places: &[u32], to: u32) -> Result<u32, ElideNo> {
    match places.get(to as usize) {
        Some(place) => Ok(*place),
        None => Err(ElideNo::Misfit),
    }
}

/// An operation, with its jump to where its label stands now.
fn renumbered(places: &[u32], op: Op) -> Result<Op, ElideNo> {
    match op {
        Op::Jump(to) => Ok(Op::Jump(moved(places, to)?)),
        Op::JumpZero(to) => Ok(Op::JumpZero(moved(places, to)?)),
        Op::JumpCase { value, to } => Ok(Op::JumpCase {
            value,
            to: moved(places, to)?,
        }),
        _ => Ok(op),
    }
}

/// The operations of a function without those that are repeated.
fn elided(alloc: Global, ops: &[Op]) -> Result<Vec<Op>, ElideNo> {
    let kept = kept_of(alloc, ops)?;
    let mut all = Vec::new(alloc);
    for op in &kept.ops {
        let op = renumbered(kept.places.as_slice(), *op)?;
        all.push(op)?;
    }
    Ok(all)
}

/// A function without the operations that are repeated.
fn elide_function(alloc: Global, function: &FatFunction) -> Result<FatFunction, ElideNo> {
    let entries = Items::from_slice(alloc, function.entries.as_slice())?;
    let ops = elided(alloc, function.ops.as_slice())?;
    Ok(FatFunction {
        parameters: function.parameters,
        slots: function.slots,
        is_variadic: function.is_variadic,
        entries,
        ops: Items::from_vec(ops),
    })
}

/// The functions of a unit.
fn elide_functions(alloc: Global, functions: &[FatFunction]) -> Result<Vec<FatFunction>, ElideNo> {
    let mut all = Vec::new(alloc);
    for function in functions {
        let function = elide_function(alloc, function)?;
        all.push(function)?;
    }
    Ok(all)
}

/// A unit without repeated operations.
fn elide_unit(alloc: Global, unit: FatUnit) -> Result<FatUnit, ElideNo> {
    let mut parts = unit.into_parts();
    let functions = elide_functions(alloc, parts.functions.as_slice())?;
    parts.functions = Items::from_vec(functions);
    match FatUnit::checked(alloc, parts) {
        Ok(unit) => Ok(unit),
        Err(CheckNo::Fault(_, _)) => Err(ElideNo::Misfit),
        Err(CheckNo::NoMemory) => Err(ElideNo::NoMemory),
    }
}

/// The units of a program.
fn elide_units(alloc: Global, mut units: Items<FatUnit>) -> Result<Vec<FatUnit>, ElideNo> {
    let mut all = Vec::new(alloc);
    for _left in 0..units.len() {
        if let Some(unit) = units.pop() {
            let unit = elide_unit(alloc, unit)?;
            all.push(unit)?;
        }
    }
    all.reverse();
    Ok(all)
}

/// The program without repeated operations: a `Narrow` right behind one of the same width and sign; a `Cast` right behind another; and
/// a `Cast` right behind `SlotGet s` where `SlotGet s`, `Cast` stands earlier in the function with no `Label` and no `SlotSet s` between.
/// Each of them changes nothing when it runs. They are taken out until none is left, and jumps name their labels as before. No
/// function has more operations than it had, and all else stays.
///
/// Refused as `Misfit` where a jump names no operation, or a unit has a fault without them, and as `NoMemory`.
pub fn elide(alloc: Global, program: ProgramParts) -> Result<ProgramParts, ElideNo> {
    let mut program = program;
    let units = elide_units(alloc, program.units)?;
    program.units = Items::from_vec(units);
    Ok(program)
}
