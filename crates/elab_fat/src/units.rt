//! Units.

use crate::data::objects_of;
use crate::names::{put_constants, put_strings, symbols_of};
use crate::strings::StringTypes;
use c_tree::{TypedFunction, TypedUnit, nodes};
use c_types::TypeNode;
use elab_body::function;
use elab_setting::{ElaborateNo, TypeShapes};
use fat_code::{CheckNo, FatFunction, FatParts, FatSymbol, FatUnit};
use sqlite_items::Items;
use std::alloc::Global;
use type_relations::copied_nodes;

/// How many nodes a unit has.
fn node_count(unit: &TypedUnit) -> Result<u32, ElaborateNo> {
    let count = nodes(unit);
    if count <= 0xffff_ffff {
        Ok(count as u32)
    } else {
        Err(ElaborateNo::Misfit)
    }
}

/// The functions.
fn functions_of(
    alloc: Global,
    unit: &TypedUnit,
    shapes: &TypeShapes,
    functions: &[TypedFunction],
) -> Result<Items<FatFunction>, ElaborateNo> {
    let mut made = Items::new(alloc);
    for f in functions {
        made.push(function(alloc, &unit.types, unit.symbols.as_slice(), shapes, f)?)?;
    }
    Ok(made)
}

/// The symbols, and the types with those of the string literals.
fn names_of(
    alloc: Global,
    unit: &TypedUnit,
    shapes: &TypeShapes,
) -> Result<(Items<FatSymbol>, Items<TypeNode>), ElaborateNo> {
    let objects = unit.objects.as_slice();
    let mut types = StringTypes::new(alloc, copied_nodes(alloc, &unit.types)?)?;
    let mut symbols = symbols_of(alloc, unit.symbols.as_slice())?;
    put_strings(alloc, &mut symbols, &mut types, objects)?;
    put_constants(
        alloc,
        &mut symbols,
        shapes,
        unit.symbols.as_slice(),
        objects,
    )?;
    Ok((symbols, types.into_nodes()))
}

/// All parts.
fn parts_of(alloc: Global, unit: &TypedUnit) -> Result<FatParts, ElaborateNo> {
    let nodes = node_count(unit)?;
    let shapes = TypeShapes::of(alloc, &unit.types)?;
    let (symbols, types) = names_of(alloc, unit, &shapes)?;
    let functions = functions_of(alloc, unit, &shapes, unit.functions.as_slice())?;
    let objects = objects_of(alloc, &unit.types, &shapes, unit.objects.as_slice())?;
    Ok(FatParts {
        nodes,
        types,
        shapes: shapes.into_shapes(),
        symbols,
        functions,
        objects,
    })
}

/// The unit of these parts.
fn unit_of(alloc: Global, parts: FatParts) -> Result<FatUnit, ElaborateNo> {
    match FatUnit::checked(alloc, parts) {
        Ok(unit) => Ok(unit),
        Err(CheckNo::Fault(_, _)) => Err(ElaborateNo::Misfit),
        Err(CheckNo::NoMemory) => Err(ElaborateNo::NoMemory),
    }
}

/// The fat code of a typed unit: the operations of its functions, the data of its objects, its types and symbols. Behind its
/// symbols stands one without use for each string literal and for each const object that no name with linkage stands for, so that
/// linking sees which objects refuse writes. It takes a number of steps that grows as the unit does, times the depth of its trees
/// at most. Refused with `Misfit` where a number of the unit names nothing or its parts do not fit together, which the checker
/// rules out, and for want of memory.
pub fn elaborate(alloc: Global, unit: &TypedUnit) -> Result<FatUnit, ElaborateNo> {
    unit_of(alloc, parts_of(alloc, unit)?)
}
