//! The symbols of a unit, and behind them those that say which objects are const: string literals, and const objects that no
//! name with linkage stands for.

use crate::strings::StringTypes;
use c_ops::{Definition, Linkage};
use c_tree::{TypedObject, TypedSymbol};
use c_types::TypeId;
use elab_setting::{ElaborateNo, TypeShapes, count_of};
use fat_code::FatSymbol;
use fsc_base::Name;
use sqlite_items::Items;
use std::alloc::Global;

/// A symbol of the text.
fn symbol_of(alloc: Global, symbol: &TypedSymbol) -> Result<FatSymbol, ElaborateNo> {
    Ok(FatSymbol {
        name: Name::from_slice(alloc, symbol.name.as_slice())?,
        linkage: symbol.linkage,
        kind: symbol.kind,
        used: symbol.used,
        definition: symbol.definition,
    })
}

/// The symbols of the text.
pub(crate) fn symbols_of(
    alloc: Global,
    symbols: &[TypedSymbol],
) -> Result<Items<FatSymbol>, ElaborateNo> {
    let mut made = Items::new(alloc);
    for symbol in symbols {
        made.push(symbol_of(alloc, symbol)?)?;
    }
    Ok(made)
}

/// A symbol that stands for an object alone.
fn own_symbol(
    alloc: Global,
    name: &Name,
    kind: TypeId,
    object: u32,
) -> Result<FatSymbol, ElaborateNo> {
    Ok(FatSymbol {
        name: Name::from_slice(alloc, name.as_slice())?,
        linkage: Linkage::Internal,
        kind,
        used: false,
        definition: Definition::Object(object),
    })
}

/// Whether an object is a string literal.
fn is_string(object: &TypedObject) -> bool {
    object.name.as_slice().is_empty()
}

/// One for a string literal.
fn put_string(
    alloc: Global,
    symbols: &mut Items<FatSymbol>,
    types: &mut StringTypes,
    number: u32,
    object: &TypedObject,
) -> Result<(), ElaborateNo> {
    if is_string(object) {
        let kind = types.array(object.size)?;
        symbols.push(own_symbol(alloc, &object.name, kind, number)?)?;
    }
    Ok(())
}

/// One for each string literal, in order.
pub(crate) fn put_strings(
    alloc: Global,
    symbols: &mut Items<FatSymbol>,
    types: &mut StringTypes,
    objects: &[TypedObject],
) -> Result<(), ElaborateNo> {
    let mut number = 0u32;
    for object in objects {
        put_string(alloc, symbols, types, number, object)?;
        number = number.saturating_add(1);
    }
    Ok(())
}

/// So many objects that no symbol stands for.
fn none_defined(alloc: Global, count: usize) -> Result<Vec<bool>, ElaborateNo> {
    let mut are_defined = Vec::new(alloc);
    for _ in 0..count {
        are_defined.push(false)?;
    }
    Ok(are_defined)
}

/// Puts what a symbol stands for.
fn put_defined(are_defined: &mut Vec<bool>, definition: Definition) {
    if let Definition::Object(object) = definition {
        if let Some(is_defined) = are_defined.get_mut(object as usize) {
            *is_defined = true;
        }
    }
}

/// For each object whether a symbol stands for it.
fn defined_by(
    alloc: Global,
    symbols: &[TypedSymbol],
    count: usize,
) -> Result<Vec<bool>, ElaborateNo> {
    let mut are_defined = none_defined(alloc, count)?;
    for symbol in symbols {
        put_defined(&mut are_defined, symbol.definition);
    }
    Ok(are_defined)
}

/// Whether an object is const, has a name, and no symbol stands for it.
fn wants_symbol(
    shapes: &TypeShapes,
    are_defined: &[bool],
    number: u32,
    object: &TypedObject,
) -> bool {
    let is_defined = match are_defined.get(number as usize) {
        Some(is_defined) => *is_defined,
        None => true,
    };
    !is_defined && !is_string(object) && shapes.is_const(object.kind)
}

/// One for a const object that no symbol stands for.
fn put_constant(
    alloc: Global,
    symbols: &mut Items<FatSymbol>,
    is_wanted: bool,
    number: u32,
    object: &TypedObject,
) -> Result<(), ElaborateNo> {
    if is_wanted {
        symbols.push(own_symbol(alloc, &object.name, object.kind, number)?)?;
    }
    Ok(())
}

/// One for each const object that no symbol stands for, in order.
fn put_undefined(
    alloc: Global,
    symbols: &mut Items<FatSymbol>,
    shapes: &TypeShapes,
    are_defined: &[bool],
    objects: &[TypedObject],
) -> Result<(), ElaborateNo> {
    for number in 0..objects.len() {
        let object = &objects[number];
        let number = count_of(number);
        let is_wanted = wants_symbol(shapes, are_defined, number, object);
        put_constant(alloc, symbols, is_wanted, number, object)?;
    }
    Ok(())
}

/// One for each const object that none of these symbols stands for, in order.
pub(crate) fn put_constants(
    alloc: Global,
    symbols: &mut Items<FatSymbol>,
    shapes: &TypeShapes,
    known: &[TypedSymbol],
    objects: &[TypedObject],
) -> Result<(), ElaborateNo> {
    let are_defined = defined_by(alloc, known, objects.len())?;
    put_undefined(alloc, symbols, shapes, are_defined.as_slice(), objects)
}
