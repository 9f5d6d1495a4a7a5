//! The faults of objects.

ghost use Rattle.std.specs.Prelude.{◌≡◌, ◌+◌, sum_by};
ghost use Rattle.c_memory.specs.Access.{bytes_of};
ghost use Rattle.fat_code.specs.Lengths.{list_bytes, value_bytes, piece_bytes, object_bytes};
ghost use Rattle.fat_code.specs.Rows.{rows_from};
ghost use Rattle.fat_code.specs.UnitRows.{value_rows, piece_rows, object_rows, rows_of_objects};
ghost use Rattle.fat_code.specs.Walking.{Checks};

use crate::fault::{CheckNo, UnitFault};
use crate::symbol_check::{object_number, shape_number, symbol_number};
use crate::unit::{FatObject, FatParts, FatPiece, FatValue};
use crate::walk::{further, limit, test};
use fsc_base::Width;

/// The greatest size of a type, in bytes.
pub(crate) const MOST_BYTES: u64 = 0x0800_0000;

/// How many bytes an access of a width touches.
fn bytes_of(width: Width) -> u64
    ensures { result ≡ bytes_of width }
{
    match width {
        Width::One => 1,
        Width::Two => 2,
        Width::Four => 4,
    }
}

/// What a piece holds.
fn value(unit: &FatParts, value: FatValue, at: u64) -> Result<u64, CheckNo>
    ensures { Checks (value_rows unit.now at value) (at + value_bytes value) result }
{
    let number_at = further(at, 4)?;
    match value {
        FatValue::Number(_) => further(number_at, 4),
        FatValue::Symbol { symbol, .. } => {
            let offset_at = symbol_number(unit, symbol, number_at)?;
            further(offset_at, 4)
        }
        FatValue::Object { object, .. } => {
            let offset_at = object_number(unit, object, number_at)?;
            further(offset_at, 4)
        }
    }
}

/// A piece of an object of a size. It lies within it.
fn piece(unit: &FatParts, size: u32, piece: &FatPiece, at: u64) -> Result<u64, CheckNo>
    ensures { Checks (piece_rows unit.now size 0 at piece.now) (at + piece_bytes piece.now) result }
{
    let end = u64::from(piece.offset) + bytes_of(piece.width);
    test(UnitFault::Index, u64::from(size) < end, at)?;
    let value_at = further(at, 8)?;
    value(unit, piece.value, value_at)
}

/// The pieces of an object, behind their count.
fn pieces(unit: &FatParts, size: u32, pieces: &[FatPiece], start: u64) -> Result<u64, CheckNo>
    ensures { Checks (rows_from (piece_rows unit.now size) piece_bytes 0 start pieces.now) (start + sum_by piece_bytes pieces.now) result }
{
    let mut at = start;
    for item in pieces {
        at = piece(unit, size, item, at)?;
    }
    Ok(at)
}

/// An object.
fn object(unit: &FatParts, object: &FatObject, at: u64) -> Result<u64, CheckNo>
    ensures { Checks (object_rows unit.now 0 at object.now) (at + object_bytes object.now) result }
{
    let shape_at = limit(MOST_BYTES, u64::from(object.size), at)?;
    let count_at = shape_number(unit, object.shape, shape_at)?;
    let first_at = further(count_at, 4)?;
    pieces(unit, object.size, object.pieces.as_slice(), first_at)
}

/// The objects of a unit, behind their count.
fn objects_from(unit: &FatParts, objects: &[FatObject], start: u64) -> Result<u64, CheckNo>
    ensures { Checks (rows_from (object_rows unit.now) object_bytes 0 start objects.now) (start + sum_by object_bytes objects.now) result }
{
    let mut at = start;
    for item in objects {
        at = object(unit, item, at)?;
    }
    Ok(at)
}

/// The objects of a unit.
#[tactic(auto, unfolding(crate::specs::UnitRows::rows_of_objects))]
pub(crate) fn objects(unit: &FatParts, at: u64) -> Result<u64, CheckNo>
    ensures { Checks (rows_of_objects unit.now at) (at + list_bytes object_bytes unit.now.objects) result }
{
    let first_at = further(at, 4)?;
    objects_from(unit, unit.objects.as_slice(), first_at)
}
