//! The code of the units.

use crate::function::emit_function;
use crate::names::Names;
use fat_code::{BlockLists, FatFunction, FatObject, FatUnit, ProgramParts};
use rv_asm::{AsmNo, Assembler};
use rv_runtime::Entries;
use rv_statics::{Content, Contents, ShapeRecords};
use std::alloc::Global;

/// The list of a unit.
fn list_of(lists: &BlockLists, unit: usize) -> Option<&[u32]> {
    Some(lists.get(unit)?.as_slice())
}

/// What the operations of a unit name, by the records of its shapes.
fn names_of<'a>(
    program: &'a ProgramParts,
    records: &'a ShapeRecords,
    shapes: &'a [u32],
    unit: usize,
) -> Option<Names<'a>> {
    Some(Names {
        heap: &program.heap,
        records,
        shapes,
        symbols: list_of(&program.symbols, unit)?,
        objects: list_of(&program.objects, unit)?,
    })
}

/// Emits a function, whose block then has its code.
fn emit_into(
    alloc: Global,
    asm: &mut Assembler,
    entries: &Entries,
    names: Names,
    contents: &mut Contents,
    function: &FatFunction,
    block: u32,
) -> Result<(), AsmNo> {
    let address = emit_function(alloc, asm, entries, names, function)?;
    contents.set(block, Content::Function(address))
}

/// Emits the functions of a unit, in order, with these blocks.
fn emit_functions(
    alloc: Global,
    asm: &mut Assembler,
    entries: &Entries,
    names: Names,
    contents: &mut Contents,
    functions: &[FatFunction],
    blocks: &[u32],
) -> Result<(), AsmNo> {
    if functions.len() != blocks.len() {
        return Err(AsmNo::Misfit);
    }
    for (function, block) in functions.iter().zip(blocks) {
        emit_into(alloc, asm, entries, names, contents, function, *block)?;
    }
    Ok(())
}

/// Says that a block is an object.
fn set_object(
    contents: &mut Contents,
    shapes: &[u32],
    object: &FatObject,
    block: u32,
) -> Result<(), AsmNo> {
    match shapes.get(object.shape as usize) {
        None => Err(AsmNo::Misfit),
        Some(number) => contents.set(block, Content::Object(*number)),
    }
}

/// Says which blocks are the objects of a unit.
fn set_objects(contents: &mut Contents, names: Names, objects: &[FatObject]) -> Result<(), AsmNo> {
    if objects.len() != names.objects.len() {
        return Err(AsmNo::Misfit);
    }
    for (object, block) in objects.iter().zip(names.objects) {
        set_object(contents, names.shapes, object, *block)?;
    }
    Ok(())
}

/// The program that is made, and the records of its shapes.
#[derive(Clone, Copy)]
pub(crate) struct Source<'a> {
    pub program: &'a ProgramParts,
    pub records: &'a ShapeRecords,
    pub entries: &'a Entries,
}

/// Emits a unit with the records of its shapes, and says what its blocks are.
fn emit_unit(
    alloc: Global,
    asm: &mut Assembler,
    source: Source,
    contents: &mut Contents,
    index: usize,
    unit: &FatUnit,
    shapes: &[u32],
) -> Result<(), AsmNo> {
    let parts = unit.parts();
    let Some(names) = names_of(source.program, source.records, shapes, index) else {
        return Err(AsmNo::Misfit);
    };
    let Some(blocks) = list_of(&source.program.functions, index) else {
        return Err(AsmNo::Misfit);
    };
    set_objects(contents, names, parts.objects.as_slice())?;
    let functions = parts.functions.as_slice();
    emit_functions(
        alloc,
        asm,
        source.entries,
        names,
        contents,
        functions,
        blocks,
    )
}

/// Emits all units, in order, with the records of the shapes of each, and says what the blocks are.
pub(crate) fn emit_units(
    alloc: Global,
    asm: &mut Assembler,
    source: Source,
    shapes: &[Vec<u32>],
) -> Result<Contents, AsmNo> {
    let mut contents = Contents::new(alloc, source.program.heap.count())?;
    let units = source.program.units.as_slice();
    for (index, (unit, numbers)) in units.iter().zip(shapes).enumerate() {
        let numbers = numbers.as_slice();
        emit_unit(alloc, asm, source, &mut contents, index, unit, numbers)?;
    }
    Ok(contents)
}

/// Adds the records of a unit's shapes, and their numbers to a list.
fn push_shapes(
    alloc: Global,
    records: &mut ShapeRecords,
    lists: &mut Vec<Vec<u32>>,
    unit: &FatUnit,
) -> Result<(), AsmNo> {
    let numbers = records.numbers_of(alloc, unit.parts().shapes.as_slice())?;
    lists.push(numbers)?;
    Ok(())
}

/// Adds the records of all shapes, and gives for each unit the numbers of its own.
pub(crate) fn shapes_of(
    alloc: Global,
    records: &mut ShapeRecords,
    units: &[FatUnit],
) -> Result<Vec<Vec<u32>>, AsmNo> {
    let mut lists = Vec::with_capacity(alloc, units.len())?;
    for unit in units {
        push_shapes(alloc, records, &mut lists, unit)?;
    }
    Ok(lists)
}
