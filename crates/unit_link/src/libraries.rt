//! Which units of the library a program gets.

use c_ops::Linkage;
use fat_code::{FatSymbol, FatUnit};
use fsc_base::NoMemory;
use indexmap::IndexMap;
use sqlite_items::Items;
use std::alloc::Global;

/// What the user's units do with a name with external linkage.
#[derive(Clone, Copy)]
struct Mention {
    is_used: bool,
    is_defined: bool,
}

/// The names with external linkage of the user's units.
type Mentions = IndexMap<Vec<u8>, Mention>;

fn is_external(symbol: &FatSymbol) -> bool {
    match symbol.linkage {
        Linkage::External => true,
        Linkage::Internal => false,
    }
}

fn is_defined(symbol: &FatSymbol) -> bool {
    match symbol.definition {
        c_ops::Definition::Missing => false,
        c_ops::Definition::Function(_) | c_ops::Definition::Object(_) => true,
    }
}

/// One more mention of a name.
fn add_mention(alloc: Global, mentions: &mut Mentions, symbol: &FatSymbol) -> Result<(), NoMemory> {
    let name = symbol.name.as_slice();
    let before = match mentions.get(name) {
        Some(before) => *before,
        None => Mention {
            is_used: false,
            is_defined: false,
        },
    };
    let now = Mention {
        is_used: before.is_used || symbol.used,
        is_defined: before.is_defined || is_defined(symbol),
    };
    mentions.insert(Vec::from_slice(alloc, name)?, now)?;
    Ok(())
}

fn mention_unit(
    alloc: Global,
    mentions: &mut Mentions,
    symbols: &[FatSymbol],
) -> Result<(), NoMemory> {
    'symbols: for symbol in symbols {
        if is_external(symbol) {
            add_mention(alloc, mentions, symbol)?;
        }
    }
    Ok(())
}

fn mentions_of(alloc: Global, users: &[FatUnit]) -> Result<Mentions, NoMemory> {
    let mut mentions = IndexMap::new(alloc);
    'units: for unit in users {
        mention_unit(alloc, &mut mentions, unit.parts().symbols.as_slice())?;
    }
    Ok(mentions)
}

/// Whether a user's unit uses the name and none defines it.
fn is_wanted(mentions: &Mentions, name: &[u8]) -> bool {
    match mentions.get(name) {
        Some(mention) => mention.is_used && !mention.is_defined,
        None => false,
    }
}

/// Whether a unit of the library defines a wanted name. What it uses itself wants nothing.
fn is_added(mentions: &Mentions, symbols: &[FatSymbol]) -> bool {
    'symbols: for symbol in symbols {
        if is_external(symbol)
            && is_defined(symbol)
            && is_wanted(mentions, symbol.name.as_slice())
        {
            return true;
        }
    }
    false
}

/// The indices of the units of the library that a program of the user's units gets, in the library's order: those that define a name
/// with external linkage which a user's unit uses and none defines. Refused only for want of memory.
pub fn added(
    alloc: Global,
    users: &[FatUnit],
    library: &[FatUnit],
) -> Result<Items<u32>, NoMemory> {
    let mentions = mentions_of(alloc, users)?;
    let mut added = Items::new(alloc);
    let mut index: u32 = 0;
    'units: for unit in library {
        if is_added(&mentions, unit.parts().symbols.as_slice()) {
            added.push(index)?;
        }
        index = index.saturating_add(1);
    }
    Ok(added)
}
