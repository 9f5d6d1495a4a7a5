//! Copies of units.

use fat_code::{CheckNo, FatFunction, FatObject, FatParts, FatSymbol, FatUnit};
use fsc_base::{Name, NoMemory};
use sqlite_items::Items;
use std::alloc::Global;
use type_desc::Kinds;
use type_relations::copied_slice;

fn copied_shapes(alloc: Global, shapes: &[Kinds]) -> Result<Items<Kinds>, NoMemory> {
    let mut copies = Items::new(alloc);
    'shapes: for shape in shapes {
        copies.push(Kinds::from_slice(alloc, shape.as_slice())?)?;
    }
    Ok(copies)
}

fn copied_symbol(alloc: Global, symbol: &FatSymbol) -> Result<FatSymbol, NoMemory> {
    Ok(FatSymbol {
        name: Name::from_slice(alloc, symbol.name.as_slice())?,
        linkage: symbol.linkage,
        kind: symbol.kind,
        used: symbol.used,
        definition: symbol.definition,
    })
}

fn copied_symbols(alloc: Global, symbols: &[FatSymbol]) -> Result<Items<FatSymbol>, NoMemory> {
    let mut copies = Items::new(alloc);
    'symbols: for symbol in symbols {
        copies.push(copied_symbol(alloc, symbol)?)?;
    }
    Ok(copies)
}

fn copied_function(alloc: Global, function: &FatFunction) -> Result<FatFunction, NoMemory> {
    Ok(FatFunction {
        parameters: function.parameters,
        slots: function.slots,
        is_variadic: function.is_variadic,
        entries: Items::from_slice(alloc, function.entries.as_slice())?,
        ops: Items::from_slice(alloc, function.ops.as_slice())?,
    })
}

fn copied_functions(
    alloc: Global,
    functions: &[FatFunction],
) -> Result<Items<FatFunction>, NoMemory> {
    let mut copies = Items::new(alloc);
    'functions: for function in functions {
        copies.push(copied_function(alloc, function)?)?;
    }
    Ok(copies)
}

fn copied_object(alloc: Global, object: &FatObject) -> Result<FatObject, NoMemory> {
    Ok(FatObject {
        size: object.size,
        shape: object.shape,
        pieces: Items::from_slice(alloc, object.pieces.as_slice())?,
    })
}

fn copied_objects(alloc: Global, objects: &[FatObject]) -> Result<Items<FatObject>, NoMemory> {
    let mut copies = Items::new(alloc);
    'objects: for object in objects {
        copies.push(copied_object(alloc, object)?)?;
    }
    Ok(copies)
}

fn copied_parts(alloc: Global, parts: &FatParts) -> Result<FatParts, NoMemory> {
    let types = copied_slice(alloc, parts.types.as_slice())?;
    let shapes = copied_shapes(alloc, parts.shapes.as_slice())?;
    let symbols = copied_symbols(alloc, parts.symbols.as_slice())?;
    let functions = copied_functions(alloc, parts.functions.as_slice())?;
    Ok(FatParts {
        nodes: parts.nodes,
        types,
        shapes,
        symbols,
        functions,
        objects: copied_objects(alloc, parts.objects.as_slice())?,
    })
}

fn copied_unit(alloc: Global, parts: &FatParts) -> Result<FatUnit, CheckNo> {
    let copy = copied_parts(alloc, parts)?;
    FatUnit::checked(alloc, copy)
}

/// Copies of units, each of which is tested once more. Refused only for want of memory, since a unit has no fault.
pub fn copied_units(alloc: Global, units: &[&FatParts]) -> Result<Items<FatUnit>, CheckNo> {
    let mut copies = Items::new(alloc);
    'units: for unit in units {
        copies.push(copied_unit(alloc, unit)?)?;
    }
    Ok(copies)
}
