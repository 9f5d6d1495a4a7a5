//! The faults of a unit.

ghost use Rattle.std.specs.Prelude.{◌≡◌, IfOk};
ghost use Rattle.fat_code.specs.Faults.{table_of, fault_of};
ghost use Rattle.fat_code.specs.Lengths.{file_bytes};
ghost use Rattle.fat_code.specs.Walking.{Checks};

use crate::fault::{CheckNo, UnitFault, Version};
use crate::function_check::functions;
use crate::object_check::objects;
use crate::shape_check::shapes;
use crate::symbol_check::symbols;
use crate::type_check::types;
use crate::unit::FatParts;
use fsc_base::NoMemory;
use std::alloc::Global;

/// The parts of a unit, in the order of its file: gives the offset of the file's end.
pub(crate) fn check(alloc: Global, unit: &FatParts, version: Version) -> Result<u64, CheckNo>
    ensures { Checks (table_of version unit.now) (file_bytes version unit.now) result }
{
    let shapes_at = types(alloc, version, unit.types.as_slice(), 8)?;
    let symbols_at = shapes(unit, shapes_at)?;
    let functions_at = symbols(unit, symbols_at)?;
    let objects_at = functions(unit, functions_at)?;
    objects(unit, objects_at)
}

/// The first fault of these parts in the order of their file of a version, and its offset there, in bytes; None where they make a
/// unit. A file of version 1 has no places for bit-fields, and their faults aren't told.
///
/// Refused where no memory is left for the check, or where the file would have 2^64 bytes or more.
#[tactic(auto, unfolding(crate::specs::Faults::fault_of))]
pub fn fault_of(
    alloc: Global,
    parts: &FatParts,
    version: Version,
) -> Result<Option<(UnitFault, u64)>, NoMemory>
    ensures { IfOk result (λ fault. fault ≡ fault_of version parts.now) }
{
    match check(alloc, parts, version) {
        Ok(_end) => Ok(None),
        Err(CheckNo::Fault(fault, offset)) => Ok(Some((fault, offset))),
        Err(CheckNo::NoMemory) => Err(NoMemory),
    }
}
