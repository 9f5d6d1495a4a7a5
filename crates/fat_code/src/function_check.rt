//! The faults of functions.

ghost use Rattle.std.specs.Prelude.{◌≡◌, ◌+◌, ◌*◌, ◌++◌, ◌∷◌, [], length, sum_by};
ghost use Rattle.fat_code.specs.Lengths.{list_bytes, entry_bytes, op_bytes, function_bytes};
ghost use Rattle.fat_code.specs.Rows.{row, limit_row, rows_from, rows_of_list};
ghost use Rattle.fat_code.specs.FunctionRows.{entry_rows, head_rows, function_rows, rows_of_functions};
ghost use Rattle.fat_code.specs.Walking.{Checks, HasCounted, entries_rows_by, ops_rows_by, function_rows_by};

use crate::fault::{CheckNo, UnitFault};
use crate::object_check::MOST_BYTES;
use crate::op_check::operations;
use crate::symbol_check::shape_number;
use crate::unit::{FatEntry, FatFunction, FatParts};
use crate::walk::{further, limit, number, test};

/// An entry block.
fn entry(unit: &FatParts, entry: &FatEntry, at: u64) -> Result<u64, CheckNo>
    ensures { Checks (entry_rows unit.now 0 at entry.now) (at + entry_bytes entry.now) result }
{
    let shape_at = limit(MOST_BYTES, u64::from(entry.size), at)?;
    shape_number(unit, entry.shape, shape_at)
}

/// The entry blocks of a function, behind their count.
fn entries_from(unit: &FatParts, entries: &[FatEntry], start: u64) -> Result<u64, CheckNo>
    ensures { Checks (rows_from (entry_rows unit.now) entry_bytes 0 start entries.now) (start + sum_by entry_bytes entries.now) result }
{
    let mut at = start;
    for item in entries {
        at = entry(unit, item, at)?;
    }
    Ok(at)
}

/// The numbers of a function: at most 64 parameters, each with its slot, and at most 255 slots.
fn head(function: &FatFunction, at: u64) -> Result<u64, CheckNo>
    ensures { Checks (head_rows function.now at) (at + 12) result }
{
    let holds = function.parameters > 64 || function.slots < function.parameters;
    let slots_at = number(UnitFault::Limit, holds, at)?;
    let variadic_at = limit(255, u64::from(function.slots), slots_at)?;
    further(variadic_at, 4)
}

/// The entry blocks of a function: at most 255, and in the unit so far one for each of its nodes.
fn entries(unit: &FatParts, so_far: u64, function: &FatFunction, at: u64) -> Result<u64, CheckNo>
    ensures { Checks (entries_rows_by unit.now so_far at function.now) (at + list_bytes entry_bytes function.now.entries) result }
{
    let entries = function.entries.as_slice();
    let holds = entries.len() > 255 || so_far > u64::from(unit.nodes);
    let first_at = number(UnitFault::Limit, holds, at)?;
    entries_from(unit, entries, first_at)
}

/// The operations of a function: in the unit so far at most 16 for each of its nodes, and at least one.
#[tactic(auto, unfolding(crate::specs::OpRows::op_rows))]
fn ops(unit: &FatParts, so_far: u64, function: &FatFunction, at: u64) -> Result<u64, CheckNo>
    ensures { Checks (ops_rows_by unit.now so_far at function.now) (at + list_bytes op_bytes function.now.ops) result }
{
    test(UnitFault::Limit, so_far > 16 * u64::from(unit.nodes), at)?;
    let first_at = number(UnitFault::Height, function.ops.is_empty(), at)?;
    operations(unit, function, first_at)
}

/// How many entry blocks and operations the functions of a unit so far have.
#[derive(Clone, Copy)]
struct Counts {
    entries: u64,
    ops: u64,
}

impl Counts {
    /// With those of one more function. NoMemory where no file is as long.
    fn with(self, function: &FatFunction) -> Result<Counts, CheckNo>
        ensures { HasCounted self function.now result }
    {
        let entries = further(self.entries, function.entries.len() as u64)?;
        let ops = further(self.ops, function.ops.len() as u64)?;
        Ok(Counts { entries, ops })
    }
}

/// A function, and the counts of the unit's functions up to it.
fn function(
    unit: &FatParts,
    so_far: Counts,
    function: &FatFunction,
    at: u64,
) -> Result<u64, CheckNo>
    ensures { Checks (function_rows_by unit.now so_far.entries so_far.ops at function.now) (at + function_bytes function.now) result }
{
    let entries_at = head(function, at)?;
    let ops_at = entries(unit, so_far.entries, function, entries_at)?;
    ops(unit, so_far.ops, function, ops_at)
}

/// The functions of a unit, behind their count.
fn functions_from(unit: &FatParts, start: u64) -> Result<u64, CheckNo>
    ensures { Checks (rows_from (function_rows unit.now) function_bytes 0 start unit.now.functions) (start + sum_by function_bytes unit.now.functions) result }
{
    let mut at = start;
    let mut so_far = Counts { entries: 0, ops: 0 };
    for item in unit.functions.as_slice() {
        so_far = so_far.with(item)?;
        at = function(unit, so_far, item, at)?;
    }
    Ok(at)
}

/// The functions of a unit.
#[tactic(auto, unfolding(crate::specs::FunctionRows::rows_of_functions))]
pub(crate) fn functions(unit: &FatParts, at: u64) -> Result<u64, CheckNo>
    ensures { Checks (rows_of_functions unit.now at) (at + list_bytes function_bytes unit.now.functions) result }
{
    let first_at = further(at, 4)?;
    functions_from(unit, first_at)
}
