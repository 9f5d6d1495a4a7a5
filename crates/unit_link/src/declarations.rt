//! The declarations of names with external linkage (C90 6.1.2.2).

use crate::refusal::LinkNo;
use fsc_base::NoMemory;
use indexmap::IndexMap;
use start_blocks::{LinkSymbol, LinkView};
use std::alloc::Global;

/// A symbol of a unit: its unit in link order and its index there, both from 0.
#[derive(Clone, Copy)]
pub(crate) struct Declaration {
    pub unit: u32,
    pub symbol: u32,
}

/// The declarations of each name with external linkage, in link order; the names are in the order of their first ones.
pub(crate) type Declarations = IndexMap<Vec<u8>, Vec<Declaration>>;

/// One more declaration of a name.
fn declare(
    alloc: Global,
    declarations: &mut Declarations,
    name: &[u8],
    declaration: Declaration,
) -> Result<(), NoMemory> {
    if let Some(list) = declarations.get_mut(name) {
        list.push(declaration)?;
        return Ok(());
    }
    let mut list = Vec::new(alloc);
    list.push(declaration)?;
    declarations.insert(Vec::from_slice(alloc, name)?, list)?;
    Ok(())
}

/// The declarations of a unit.
fn declare_unit(
    alloc: Global,
    declarations: &mut Declarations,
    unit: u32,
    symbols: &[LinkSymbol],
) -> Result<(), NoMemory> {
    let mut index: u32 = 0;
    'symbols: for symbol in symbols {
        if symbol.is_external() {
            let declaration = Declaration {
                unit,
                symbol: index,
            };
            declare(alloc, declarations, symbol.name.as_slice(), declaration)?;
        }
        index = index.saturating_add(1);
    }
    Ok(())
}

/// The declarations of units in link order. Refused only for want of memory.
pub(crate) fn declarations_of(alloc: Global, views: &[LinkView]) -> Result<Declarations, NoMemory> {
    let mut declarations = IndexMap::new(alloc);
    let mut unit: u32 = 0;
    'units: for view in views {
        declare_unit(alloc, &mut declarations, unit, view.symbols.as_slice())?;
        unit = unit.saturating_add(1);
    }
    Ok(declarations)
}

/// The symbol of a declaration.
pub(crate) fn symbol_at(views: &[LinkView], at: Declaration) -> Result<&LinkSymbol, LinkNo> {
    let Some(view) = views.get(at.unit as usize) else {
        return Err(LinkNo::Misfit);
    };
    match view.symbols.get(at.symbol as usize) {
        Some(symbol) => Ok(symbol),
        None => Err(LinkNo::Misfit),
    }
}
