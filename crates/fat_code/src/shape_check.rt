//! The faults of shapes.

ghost use Rattle.std.specs.Prelude.{◌≡◌, ◌+◌, ◌*◌, length, sum_by};
ghost use Rattle.fat_code.specs.Lengths.{list_bytes, shape_bytes};
ghost use Rattle.fat_code.specs.Rows.{rows_from};
ghost use Rattle.fat_code.specs.UnitRows.{is_shape, shape_rows, rows_of_shapes};
ghost use Rattle.fat_code.specs.Walking.{Checks};

use crate::fault::{CheckNo, UnitFault};
use crate::period::is_least;
use crate::type_check::records;
use crate::unit::FatParts;
use crate::walk::{further, limit, test};
use fsc_base::WordKind;
use type_desc::Kinds;

/// Whether a list of kinds is a shape: it isn't empty, and no shorter one gives it when it is repeated.
fn is_shape(kinds: &[WordKind]) -> bool
    ensures { result ≡ is_shape kinds.now }
{
    !kinds.is_empty() && is_least(kinds)
}

/// A shape.
fn shape(kinds: &[WordKind], at: u64) -> Result<u64, CheckNo>
    ensures { Checks (shape_rows 0 at kinds.now) (at + shape_bytes kinds.now) result }
{
    test(UnitFault::Index, !is_shape(kinds), at)?;
    let first_at = limit(1024, kinds.len() as u64, at)?;
    further(first_at, 4 * kinds.len() as u64)
}

/// The shapes of a unit, behind their count.
fn shapes_from(shapes: &[Kinds], start: u64) -> Result<u64, CheckNo>
    ensures { Checks (rows_from shape_rows shape_bytes 0 start shapes.now) (start + sum_by shape_bytes shapes.now) result }
{
    let mut at = start;
    for kinds in shapes {
        at = shape(kinds.as_slice(), at)?;
    }
    Ok(at)
}

/// The shapes of a unit: one for each struct and union type, and two more.
#[tactic(auto, unfolding(crate::specs::UnitRows::rows_of_shapes))]
pub(crate) fn shapes(unit: &FatParts, at: u64) -> Result<u64, CheckNo>
    ensures { Checks (rows_of_shapes unit.now at) (at + list_bytes shape_bytes unit.now.shapes) result }
{
    let most = records(unit.types.as_slice()) as u64 + 2;
    let shapes = unit.shapes.as_slice();
    let first_at = limit(most, shapes.len() as u64, at)?;
    shapes_from(shapes, first_at)
}
