//! Typed units as linking sees them.

use crate::pieces::view_pieces;
use crate::sealing::is_sealed;
use c_tree::{TypedObject, TypedSymbol, TypedUnit, nodes};
use c_types::{TypeNode, TypeTable};
use fsc_base::{Name, NoMemory};
use sqlite_items::Items;
use start_blocks::{LinkObject, LinkSymbol, LinkView};
use std::alloc::Global;

fn view_symbol(alloc: Global, symbol: &TypedSymbol) -> Result<LinkSymbol, NoMemory> {
    Ok(LinkSymbol {
        name: Name::from_slice(alloc, symbol.name.as_slice())?,
        linkage: symbol.linkage,
        kind: symbol.kind,
        is_used: symbol.used,
        definition: symbol.definition,
    })
}

fn view_symbols(alloc: Global, symbols: &[TypedSymbol]) -> Result<Items<LinkSymbol>, NoMemory> {
    let mut viewed = Items::new(alloc);
    'symbols: for symbol in symbols {
        viewed.push(view_symbol(alloc, symbol)?)?;
    }
    Ok(viewed)
}

fn view_object(
    alloc: Global,
    types: &TypeTable,
    object: &TypedObject,
) -> Result<LinkObject, NoMemory> {
    Ok(LinkObject {
        size: object.size,
        is_sealed: is_sealed(types, object),
        pieces: view_pieces(alloc, types, object.pieces.as_slice())?,
    })
}

fn view_objects(
    alloc: Global,
    types: &TypeTable,
    objects: &[TypedObject],
) -> Result<Items<LinkObject>, NoMemory> {
    let mut viewed = Items::new(alloc);
    'objects: for object in objects {
        viewed.push(view_object(alloc, types, object)?)?;
    }
    Ok(viewed)
}

/// How many struct and union types there are.
fn records(types: &TypeTable) -> u64 {
    let mut count: u64 = 0;
    'nodes: for i in 0..types.len() {
        match types.get(i) {
            Some(TypeNode::Struct(_)) | Some(TypeNode::Union(_)) => count = count.saturating_add(1),
            _ => {}
        }
    }
    count
}

/// How many functions a unit defines; a unit has fewer than 2^32.
fn functions(u: &TypedUnit) -> u32 {
    u32::try_from(u.functions.len()).unwrap_or(u32::MAX)
}

/// What linking sees of a unit. Refused only for want of memory.
pub fn view_of(alloc: Global, u: &TypedUnit) -> Result<LinkView, NoMemory> {
    let symbols = view_symbols(alloc, u.symbols.as_slice())?;
    let objects = view_objects(alloc, &u.types, u.objects.as_slice())?;
    Ok(LinkView {
        symbols,
        functions: functions(u),
        objects,
        nodes: nodes(u),
        records: records(&u.types),
    })
}
