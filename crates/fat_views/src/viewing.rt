//! Units of fat code as linking sees them.

use c_types::{TypeId, TypeNode};
use fat_code::{FatObject, FatParts, FatPiece, FatSymbol, FatValue};
use fsc_base::{Name, NoMemory};
use sqlite_items::Items;
use start_blocks::{LinkObject, LinkPiece, LinkSymbol, LinkValue, LinkView};
use std::alloc::Global;

fn view_symbol(alloc: Global, symbol: &FatSymbol) -> Result<LinkSymbol, NoMemory> {
    Ok(LinkSymbol {
        name: Name::from_slice(alloc, symbol.name.as_slice())?,
        linkage: symbol.linkage,
        kind: symbol.kind,
        is_used: symbol.used,
        definition: symbol.definition,
    })
}

fn view_symbols(alloc: Global, symbols: &[FatSymbol]) -> Result<Items<LinkSymbol>, NoMemory> {
    let mut viewed = Items::new(alloc);
    'symbols: for symbol in symbols {
        viewed.push(view_symbol(alloc, symbol)?)?;
    }
    Ok(viewed)
}

fn view_value(value: FatValue) -> LinkValue {
    match value {
        FatValue::Number(number) => LinkValue::Number(number),
        FatValue::Symbol { symbol, offset } => LinkValue::Symbol { symbol, offset },
        FatValue::Object { object, offset } => LinkValue::Object { object, offset },
    }
}

fn view_pieces(alloc: Global, pieces: &[FatPiece]) -> Result<Items<LinkPiece>, NoMemory> {
    let mut viewed = Items::new(alloc);
    'pieces: for piece in pieces {
        viewed.push(LinkPiece {
            offset: piece.offset,
            width: piece.width,
            value: view_value(piece.value),
        })?;
    }
    Ok(viewed)
}

fn view_object(alloc: Global, object: &FatObject, is_sealed: bool) -> Result<LinkObject, NoMemory> {
    Ok(LinkObject {
        size: object.size,
        is_sealed,
        pieces: view_pieces(alloc, object.pieces.as_slice())?,
    })
}

fn view_objects(
    alloc: Global,
    objects: &[FatObject],
    sealed: &[bool],
) -> Result<Items<LinkObject>, NoMemory> {
    let mut viewed = Items::new(alloc);
    'objects: for (object, is_sealed) in objects.iter().zip(sealed) {
        viewed.push(view_object(alloc, object, *is_sealed)?)?;
    }
    Ok(viewed)
}

// ---- which objects refuse writes

/// Whether the bits of a qualified type have that of `const` (C90 6.5.3).
fn has_const(bits: u32) -> bool {
    bits % 2 == 1
}

/// Whether a type is const-qualified, or an array, at any depth, of such a type.
fn is_const(types: &[TypeNode], id: TypeId) -> bool {
    let mut id = id;
    'depth: for _ in 0..types.len() {
        match types.get(id as usize) {
            Some(TypeNode::Array { of, .. }) => id = *of,
            Some(TypeNode::Qualified { of, bits }) => {
                if has_const(*bits) {
                    return true;
                }
                id = *of;
            }
            _ => return false,
        }
    }
    false
}

/// The object that a symbol of const type defines, if it does.
fn sealed_object(types: &[TypeNode], symbol: &FatSymbol) -> Option<usize> {
    match symbol.definition {
        c_ops::Definition::Object(i) => {
            if is_const(types, symbol.kind) {
                Some(i as usize)
            } else {
                None
            }
        }
        c_ops::Definition::Missing | c_ops::Definition::Function(_) => None,
    }
}

/// An object refuses writes where a symbol of const type defines it.
fn sealed_objects(alloc: Global, unit: &FatParts) -> Result<Vec<bool>, NoMemory> {
    let mut sealed = vec![in alloc; false; unit.objects.len()]?;
    'symbols: for symbol in unit.symbols.as_slice() {
        if let Some(at) = sealed_object(unit.types.as_slice(), symbol) {
            if at < sealed.len() {
                sealed[at] = true;
            }
        }
    }
    Ok(sealed)
}

// ---- units

/// How many struct and union types there are.
fn records(types: &[TypeNode]) -> u64 {
    let mut count: u64 = 0;
    'nodes: for node in types {
        match node {
            TypeNode::Struct(_) | TypeNode::Union(_) => count = count.saturating_add(1),
            _ => {}
        }
    }
    count
}

/// What linking sees of a unit. Refused only for want of memory.
pub fn view_of(alloc: Global, unit: &FatParts) -> Result<LinkView, NoMemory> {
    let sealed = sealed_objects(alloc, unit)?;
    let symbols = view_symbols(alloc, unit.symbols.as_slice())?;
    let objects = view_objects(alloc, unit.objects.as_slice(), &sealed)?;
    Ok(LinkView {
        symbols,
        functions: u32::try_from(unit.functions.len()).unwrap_or(u32::MAX),
        objects,
        nodes: u64::from(unit.nodes),
        records: records(unit.types.as_slice()),
    })
}
