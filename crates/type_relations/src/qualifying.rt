//! Qualified types (C90 6.5.3).

use c_types::{LayoutNo, TypeId, TypeNode, TypeTable};
use fsc_base::NoMemory;
use std::alloc::Global;

/// A type without its own qualifiers; an array of qualified elements stays what it is. A number outside the table stays too.
pub fn unqualified(table: &TypeTable, id: TypeId) -> TypeId {
    match table.node(id) {
        TypeNode::Qualified { of, .. } => *of,
        _ => id,
    }
}

/// A type's own qualifiers: 1 for const, 2 for volatile, 3 for both. An array has none: its elements have (C90 6.5.3).
pub fn qualifiers(table: &TypeTable, id: TypeId) -> u32 {
    match table.node(id) {
        TypeNode::Qualified { bits, .. } => *bits,
        _ => 0,
    }
}

/// The innermost element of an array, with its qualifiers; every other type is its own.
pub fn element(table: &TypeTable, id: TypeId) -> TypeId {
    let mut element = id;
    for _ in 0..table.len() {
        match table.node(element) {
            TypeNode::Array { of, .. } => element = *of,
            _ => break,
        }
    }
    element
}

/// The numbers of elements of an array, the outermost first, and its innermost element.
struct Dimensions {
    counts: Vec<u32>,
    element: TypeId,
}

impl Dimensions {
    /// Those of a type; one that is no array has none. Refused only for want of memory.
    fn of(alloc: Global, table: &TypeTable, id: TypeId) -> Result<Dimensions, NoMemory> {
        let mut counts = Vec::new(alloc);
        let mut element = id;
        for _ in 0..table.len() {
            match table.node(element) {
                TypeNode::Array { of, count } => {
                    counts.push(*count)?;
                    element = *of;
                }
                _ => break,
            }
        }
        Ok(Dimensions { counts, element })
    }
}

/// The qualified version of a type: 1 for const, 2 for volatile, 3 for both; they are joined with its own. That of an array is the
/// array of the qualified elements (C90 6.5.3). 0 gives the type itself. A number outside the table is read as void. Refused only
/// for want of memory.
pub fn qualified(
    alloc: Global,
    table: &mut TypeTable,
    id: TypeId,
    bits: u32,
) -> Result<TypeId, NoMemory> {
    if bits == 0 {
        return Ok(id);
    }
    match table.node(id) {
        TypeNode::Array { .. } => qualified_array(alloc, table, id, bits),
        _ => version(table, id, bits),
    }
}

/// The qualified version of a type that is no array; every other is given back.
fn version(table: &mut TypeTable, id: TypeId, bits: u32) -> Result<TypeId, NoMemory> {
    match table.node(id) {
        TypeNode::Array { .. } => Ok(id),
        _ => {
            if id as usize >= table.len() {
                return Ok(id);
            }
            table.qualified_version(id, bits)
        }
    }
}

/// The array of the qualified innermost elements of an array.
fn qualified_array(
    alloc: Global,
    table: &mut TypeTable,
    id: TypeId,
    bits: u32,
) -> Result<TypeId, NoMemory> {
    let Dimensions {
        mut counts,
        element,
    } = Dimensions::of(alloc, table, id)?;
    let mut array = version(table, element, bits)?;
    while let Some(count) = counts.pop() {
        array = array_again(table, array, count)?;
    }
    Ok(array)
}

/// An array of elements that are as large as those of one that stands in the table. So its size is none that is refused.
fn array_again(table: &mut TypeTable, of: TypeId, count: u32) -> Result<TypeId, NoMemory> {
    match table.array_of(of, count) {
        Ok(id) => Ok(id),
        Err(LayoutNo::NoMemory | LayoutNo::Part | LayoutNo::Large | LayoutNo::NotIncomplete) => {
            Err(NoMemory)
        }
    }
}
