//! The numbers of the blocks that are there from the start: from 1 on, for each unit in link order its functions, in order of
//! definition, and then its objects, in order of first token. A name with external linkage means in each unit the block of its
//! definition (C90 6.1.2.2, 6.7).

use crate::refusal::StartNo;
use crate::view::{LinkSymbol, LinkView};
use c_ops::Definition;
use indexmap::IndexMap;
use sqlite_items::Items;
use std::alloc::Global;

/// The name of the function at which a program begins (C90 5.1.2.2.1).
pub const MAIN: &[u8] = b"main";

/// For each unit the blocks of its functions, those that its symbols mean, 0 for one without a block, and those of its objects; and
/// the block of the function `main` with external linkage, 0 where there is none.
#[derive(Debug, Drop)]
pub struct BlockNumbers {
    pub functions: Items<Items<u32>>,
    pub symbols: Items<Items<u32>>,
    pub objects: Items<Items<u32>>,
    pub entry: u32,
}

/// The blocks of definitions with external linkage, by their names.
type Definitions = IndexMap<Vec<u8>, u32>;

/// The blocks of a unit's own functions and objects.
#[derive(Clone, Copy)]
struct Own {
    first: u32,
    functions: u32,
    objects: u32,
}

impl Own {
    /// The blocks of a unit whose first one has this number.
    fn of(first: u32, unit: &LinkView) -> Result<Own, StartNo> {
        let Ok(objects) = u32::try_from(unit.objects.len()) else {
            return Err(StartNo::Misfit);
        };
        Ok(Own {
            first,
            functions: unit.functions,
            objects,
        })
    }

    /// The number of the first of its objects.
    fn first_object(self) -> Result<u32, StartNo> {
        self.first
            .checked_add(self.functions)
            .ok_or(StartNo::Misfit)
    }

    /// The number behind its last one.
    fn end(self) -> Result<u32, StartNo> {
        self.first_object()?
            .checked_add(self.objects)
            .ok_or(StartNo::Misfit)
    }

    fn function(self, i: u32) -> Result<u32, StartNo> {
        if i < self.functions {
            self.first.checked_add(i).ok_or(StartNo::Misfit)
        } else {
            Err(StartNo::Misfit)
        }
    }

    fn object(self, i: u32) -> Result<u32, StartNo> {
        if i < self.objects {
            self.first_object()?.checked_add(i).ok_or(StartNo::Misfit)
        } else {
            Err(StartNo::Misfit)
        }
    }

    /// The block of a definition; 0 for none.
    fn block(self, definition: Definition) -> Result<u32, StartNo> {
        match definition {
            Definition::Missing => Ok(0),
            Definition::Function(i) => self.function(i),
            Definition::Object(i) => self.object(i),
        }
    }
}

/// So many numbers from one on.
fn numbers_from(alloc: Global, first: u32, count: u32) -> Result<Items<u32>, StartNo> {
    let mut numbers = Items::new(alloc);
    if first.checked_add(count).is_none() {
        return Err(StartNo::Misfit);
    }
    'numbers: for i in 0..count {
        numbers.push(first.wrapping_add(i))?;
    }
    Ok(numbers)
}

/// Where the blocks of each unit begin.
fn own_blocks(alloc: Global, units: &[LinkView]) -> Result<Vec<Own>, StartNo> {
    let mut all = Vec::new(alloc);
    let mut first = 1;
    'units: for unit in units {
        let own = Own::of(first, unit)?;
        first = own.end()?;
        all.push(own)?;
    }
    Ok(all)
}

/// The definition of a symbol with external linkage, unless one of that name is there already.
fn define(
    alloc: Global,
    definitions: &mut Definitions,
    symbol: &LinkSymbol,
    own: Own,
) -> Result<(), StartNo> {
    if !symbol.is_external() || !symbol.is_defined() {
        return Ok(());
    }
    let name = symbol.name.as_slice();
    if definitions.get(name).is_some() {
        return Ok(());
    }
    let block = own.block(symbol.definition)?;
    definitions.insert(Vec::from_slice(alloc, name)?, block)?;
    Ok(())
}

fn define_unit(
    alloc: Global,
    definitions: &mut Definitions,
    unit: &LinkView,
    own: Own,
) -> Result<(), StartNo> {
    'symbols: for symbol in unit.symbols.as_slice() {
        define(alloc, definitions, symbol, own)?;
    }
    Ok(())
}

fn definitions_of(alloc: Global, units: &[LinkView], owns: &[Own]) -> Result<Definitions, StartNo> {
    let mut definitions = IndexMap::new(alloc);
    'units: for (unit, own) in units.iter().zip(owns) {
        define_unit(alloc, &mut definitions, unit, *own)?;
    }
    Ok(definitions)
}

/// The block that a symbol of a unit means; 0 for none.
fn block_of_symbol(
    definitions: &Definitions,
    symbol: &LinkSymbol,
    own: Own,
) -> Result<u32, StartNo> {
    if symbol.is_defined() {
        return own.block(symbol.definition);
    }
    if !symbol.is_external() {
        return Ok(0);
    }
    Ok(
        definitions
            .get(symbol.name.as_slice())
            .copied()
            .unwrap_or(0),
    )
}

/// The blocks of the symbols of a unit.
fn symbols_in(
    alloc: Global,
    definitions: &Definitions,
    unit: &LinkView,
    own: Own,
) -> Result<Items<u32>, StartNo> {
    let mut blocks = Items::new(alloc);
    'symbols: for symbol in unit.symbols.as_slice() {
        blocks.push(block_of_symbol(definitions, symbol, own)?)?;
    }
    Ok(blocks)
}

fn symbols_of(
    alloc: Global,
    units: &[LinkView],
    owns: &[Own],
    definitions: &Definitions,
) -> Result<Items<Items<u32>>, StartNo> {
    let mut all = Items::new(alloc);
    'units: for (unit, own) in units.iter().zip(owns) {
        all.push(symbols_in(alloc, definitions, unit, *own)?)?;
    }
    Ok(all)
}

fn functions_of(alloc: Global, owns: &[Own]) -> Result<Items<Items<u32>>, StartNo> {
    let mut all = Items::new(alloc);
    'units: for own in owns {
        all.push(numbers_from(alloc, own.first, own.functions)?)?;
    }
    Ok(all)
}

fn objects_of(alloc: Global, owns: &[Own]) -> Result<Items<Items<u32>>, StartNo> {
    let mut all = Items::new(alloc);
    'units: for own in owns {
        all.push(numbers_from(alloc, own.first_object()?, own.objects)?)?;
    }
    Ok(all)
}

/// The block of the first function `main` with external linkage that a unit defines.
fn main_in(unit: &LinkView, own: Own) -> Result<Option<u32>, StartNo> {
    'symbols: for symbol in unit.symbols.as_slice() {
        if symbol.is_function() && symbol.defines(MAIN) {
            return Ok(Some(own.block(symbol.definition)?));
        }
    }
    Ok(None)
}

/// That of the first unit which has one.
fn entry_of(units: &[LinkView], owns: &[Own]) -> Result<u32, StartNo> {
    'units: for (unit, own) in units.iter().zip(owns) {
        if let Some(block) = main_in(unit, *own)? {
            return Ok(block);
        }
    }
    Ok(0)
}

/// The numbers of the blocks of units in link order. Of several definitions of a name the first counts. Refused with `Misfit` where a
/// definition names no function or object of its unit, or there are more than 2^32 - 1 blocks, or with `NoMemory`.
pub fn numbers_of(alloc: Global, units: &[LinkView]) -> Result<BlockNumbers, StartNo> {
    let owns = own_blocks(alloc, units)?;
    let definitions = definitions_of(alloc, units, &owns)?;
    let symbols = symbols_of(alloc, units, &owns, &definitions)?;
    let functions = functions_of(alloc, &owns)?;
    let objects = objects_of(alloc, &owns)?;
    Ok(BlockNumbers {
        functions,
        symbols,
        objects,
        entry: entry_of(units, &owns)?,
    })
}
