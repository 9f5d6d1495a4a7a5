//! The faults of symbols, and of what names them, objects and shapes.

ghost use Rattle.std.specs.Prelude.{◌≡◌, ◌+◌, ◌∷◌, [], slice_get, sum_by};
ghost use Rattle.fat_code.specs.Lengths.{list_bytes, definition_bytes, symbol_bytes};
ghost use Rattle.fat_code.specs.OpRows.{is_used_in, symbol_row, object_row, shape_row};
ghost use Rattle.fat_code.specs.Rows.{rows_from};
ghost use Rattle.fat_code.specs.UnitRows.{definition_rows, symbol_rows, rows_of_symbols};
ghost use Rattle.fat_code.specs.Walking.{Checks};

use crate::fault::{CheckNo, UnitFault};
use crate::unit::{FatParts, FatSymbol};
use crate::walk::{further, index, name, number};
use c_ops::Definition;

/// Whether a symbol is there, and the unit uses it.
fn is_used(unit: &FatParts, symbol: u32) -> bool
    ensures { result ≡ is_used_in (slice_get unit.now.symbols symbol) }
{
    match unit.symbols.get(symbol as usize) {
        Some(symbol) => symbol.used,
        None => false,
    }
}

/// The number of a symbol that is there, and that the unit uses.
pub(crate) fn symbol_number(unit: &FatParts, symbol: u32, at: u64) -> Result<u64, CheckNo>
    ensures { Checks (symbol_row unit.now symbol at ∷ []) (at + 4) result }
{
    number(UnitFault::Index, !is_used(unit, symbol), at)
}

/// The number of an object.
pub(crate) fn object_number(unit: &FatParts, object: u32, at: u64) -> Result<u64, CheckNo>
    ensures { Checks (object_row unit.now object at ∷ []) (at + 4) result }
{
    index(object, unit.objects.len(), at)
}

/// The number of a shape.
pub(crate) fn shape_number(unit: &FatParts, shape: u32, at: u64) -> Result<u64, CheckNo>
    ensures { Checks (shape_row unit.now shape at ∷ []) (at + 4) result }
{
    index(shape, unit.shapes.len(), at)
}

/// What defines a symbol.
fn definition(unit: &FatParts, definition: Definition, at: u64) -> Result<u64, CheckNo>
    ensures { Checks (definition_rows unit.now at definition) (at + definition_bytes definition) result }
{
    let number_at = further(at, 4)?;
    match definition {
        Definition::Missing => Ok(number_at),
        Definition::Function(function) => index(function, unit.functions.len(), number_at),
        Definition::Object(object) => object_number(unit, object, number_at),
    }
}

/// A symbol.
fn symbol(unit: &FatParts, symbol: &FatSymbol, at: u64) -> Result<u64, CheckNo>
    ensures { Checks (symbol_rows unit.now 0 at symbol.now) (at + symbol_bytes symbol.now) result }
{
    let linkage_at = name(symbol.name.as_slice(), at)?;
    let kind_at = further(linkage_at, 4)?;
    let used_at = index(symbol.kind, unit.types.len(), kind_at)?;
    let definition_at = further(used_at, 4)?;
    definition(unit, symbol.definition, definition_at)
}

/// The symbols of a unit, behind their count.
fn symbols_from(unit: &FatParts, symbols: &[FatSymbol], start: u64) -> Result<u64, CheckNo>
    ensures { Checks (rows_from (symbol_rows unit.now) symbol_bytes 0 start symbols.now) (start + sum_by symbol_bytes symbols.now) result }
{
    let mut at = start;
    for item in symbols {
        at = symbol(unit, item, at)?;
    }
    Ok(at)
}

/// The symbols of a unit.
#[tactic(auto, unfolding(crate::specs::UnitRows::rows_of_symbols))]
pub(crate) fn symbols(unit: &FatParts, at: u64) -> Result<u64, CheckNo>
    ensures { Checks (rows_of_symbols unit.now at) (at + list_bytes symbol_bytes unit.now.symbols) result }
{
    let first_at = further(at, 4)?;
    symbols_from(unit, unit.symbols.as_slice(), first_at)
}
