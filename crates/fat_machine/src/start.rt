//! A machine at the start of a run.

ghost use Rattle.std.specs.Prelude.{◌<◌, ◌≤◌, length};

use crate::frame::Callee;
use crate::memory::{FUNCTION, Memory, ShapeRef, moved};
use crate::stop::{MachineNo, Stop};
use byte_blocks::Heap;
use c_memory::BlockKind;
use fat_code::{BlockList, FatUnit, ProgramParts};
use fsc_base::{NoMemory, Width, Word, WordKind};
use indexmap::IndexMap;
use std::alloc::Global;
use type_desc::{Kinds, Shape, Shapes};

/// Shapes by their kinds, as bytes: 1 for a fat word.
#[derive(Debug, PartialEq, Eq, Hash, Drop)]
struct KindBytes {
    bytes: Vec<u8>,
}

impl KindBytes {
    /// Those of these kinds.
    fn of(alloc: Global, kinds: &[WordKind]) -> Result<KindBytes, NoMemory> {
        let mut bytes = Vec::new(alloc);
        for kind in kinds {
            bytes.push(byte_of(*kind))?;
        }
        Ok(KindBytes { bytes })
    }
}

/// 1 for a fat word.
fn byte_of(kind: WordKind) -> u8 {
    match kind {
        WordKind::Fat => 1,
        WordKind::Narrow => 0,
    }
}

/// Descriptors of shapes: equal shapes of all units have one. That of one fat word is the first.
#[derive(Drop)]
pub(crate) struct Descriptors {
    alloc: Global,
    known: IndexMap<KindBytes, u32>,
    shapes: Shapes,
    next: u32,
}

impl Descriptors {
    /// The one of a fat word.
    pub fn new(alloc: Global) -> Result<Descriptors, MachineNo> {
        let mut descriptors = Descriptors {
            alloc,
            known: IndexMap::new(alloc),
            shapes: Shapes::new(alloc),
            next: 4,
        };
        descriptors.of(&[WordKind::Fat])?;
        Ok(descriptors)
    }

    /// The descriptor of these kinds, with the number of their words. Misfit where they are no shape.
    pub fn of(&mut self, kinds: &[WordKind]) -> Result<ShapeRef, MachineNo> {
        if kinds.is_empty() || kinds.len() > 1024 {
            return Err(MachineNo::Misfit);
        }
        let key = KindBytes::of(self.alloc, kinds)?;
        let words = kinds.len() as u32;
        match self.known.get(&key) {
            Some(desc) => Ok(ShapeRef { desc: *desc, words }),
            None => {
                let desc = self.add(key, kinds)?;
                Ok(ShapeRef { desc, words })
            }
        }
    }

    /// One more descriptor.
    fn add(&mut self, key: KindBytes, kinds: &[WordKind]) -> Result<u32, MachineNo>
        requires some { 0 < length kinds.now }
        requires few { length kinds.now ≤ 1024 }
    {
        let desc = self.next;
        if desc % 4 != 0 || desc < 4 || self.shapes.get(desc).is_some() {
            return Err(MachineNo::Misfit);
        }
        let shape = Shape::of(self.alloc, kinds)?;
        self.shapes.add(desc, shape)?;
        self.known.insert(key, desc)?;
        match desc.checked_add(4) {
            Some(next) => self.next = next,
            None => return Err(MachineNo::NoMemory),
        }
        Ok(desc)
    }

    /// The shapes.
    pub fn into_shapes(self) -> Shapes {
        let Descriptors { shapes, .. } = self;
        shapes
    }
}

/// The descriptors of a unit's shapes.
fn unit_descs(
    alloc: Global,
    descriptors: &mut Descriptors,
    shapes: &[Kinds],
) -> Result<Vec<ShapeRef>, MachineNo> {
    let mut descs = Vec::new(alloc);
    for kinds in shapes {
        let desc = descriptors.of(kinds.as_slice())?;
        descs.push(desc)?;
    }
    Ok(descs)
}

/// Those of all units.
pub(crate) fn all_descs(
    alloc: Global,
    descriptors: &mut Descriptors,
    units: &[FatUnit],
) -> Result<Vec<Vec<ShapeRef>>, MachineNo> {
    let mut all = Vec::new(alloc);
    for unit in units {
        let descs = unit_descs(alloc, descriptors, unit.parts().shapes.as_slice())?;
        all.push(descs)?;
    }
    Ok(all)
}

/// For each number of a block, no function.
fn no_callees(alloc: Global, blocks: u32) -> Result<Vec<Option<Callee>>, MachineNo> {
    let mut callees = Vec::new(alloc);
    callees.resize(blocks as usize + 1, None)?;
    Ok(callees)
}

/// A function has a block of a number; the first function of a block counts.
fn set_callee(
    callees: &mut Vec<Option<Callee>>,
    block: u32,
    callee: Callee,
) -> Result<(), MachineNo> {
    match callees.get_mut(block as usize) {
        Some(place) => {
            if place.is_none() {
                *place = Some(callee);
            }
            Ok(())
        }
        None => Err(MachineNo::Misfit),
    }
}

/// The functions of a unit, by their blocks.
fn unit_callees(
    callees: &mut Vec<Option<Callee>>,
    unit: u32,
    blocks: &[u32],
    count: usize,
) -> Result<(), MachineNo> {
    let mut function = 0u32;
    for block in blocks {
        if (function as usize) < count {
            set_callee(callees, *block, Callee { unit, function })?;
        }
        function = function.saturating_add(1);
    }
    Ok(())
}

/// The functions of all units, by their blocks.
pub(crate) fn all_callees(
    alloc: Global,
    program: &ProgramParts,
    made: u32,
) -> Result<Vec<Option<Callee>>, MachineNo> {
    let mut callees = no_callees(alloc, made)?;
    let mut unit = 0u32;
    for blocks in program.functions.as_slice() {
        let count = function_count(program, unit)?;
        unit_callees(&mut callees, unit, blocks.as_slice(), count)?;
        unit = unit.saturating_add(1);
    }
    Ok(callees)
}

/// How many functions a unit has.
fn function_count(program: &ProgramParts, unit: u32) -> Result<usize, MachineNo> {
    match program.units.get(unit as usize) {
        Some(unit) => Ok(unit.parts().functions.len()),
        None => Err(MachineNo::Misfit),
    }
}

/// The descriptors of the objects of a program, by their blocks; 1 for every other block.
fn no_objects(alloc: Global, blocks: usize) -> Result<Vec<u32>, MachineNo> {
    let mut descs = Vec::new(alloc);
    descs.resize(blocks, FUNCTION)?;
    Ok(descs)
}

/// An object has a block of a number.
fn set_object(descs: &mut Vec<u32>, block: u32, desc: u32) -> Result<(), MachineNo> {
    match descs.get_mut(block as usize) {
        Some(place) => {
            *place = desc;
            Ok(())
        }
        None => Err(MachineNo::Misfit),
    }
}

/// The objects of a unit, by their blocks.
fn unit_objects(
    descs: &mut Vec<u32>,
    unit: &FatUnit,
    shapes: &[ShapeRef],
    blocks: &[u32],
) -> Result<(), MachineNo> {
    let mut index = 0usize;
    for object in unit.parts().objects.as_slice() {
        let desc = desc_of(shapes, object.shape)?;
        let block = block_of(blocks, index)?;
        set_object(descs, block, desc)?;
        index = index.saturating_add(1);
    }
    Ok(())
}

/// The descriptor of a shape of a unit.
fn desc_of(shapes: &[ShapeRef], shape: u32) -> Result<u32, MachineNo> {
    match shapes.get(shape as usize) {
        Some(shape) => Ok(shape.desc),
        None => Err(MachineNo::Misfit),
    }
}

/// The block with an index in a list.
fn block_of(blocks: &[u32], index: usize) -> Result<u32, MachineNo> {
    match blocks.get(index) {
        Some(block) => Ok(*block),
        None => Err(MachineNo::Misfit),
    }
}

/// The objects of all units, by their blocks.
fn all_objects(
    alloc: Global,
    program: &ProgramParts,
    shapes: &[Vec<ShapeRef>],
    blocks: usize,
) -> Result<Vec<u32>, MachineNo> {
    let mut descs = no_objects(alloc, blocks)?;
    let mut index = 0usize;
    for unit in program.units.as_slice() {
        let objects = unit_blocks(program.objects.as_slice(), index)?;
        let own = unit_shapes(shapes, index)?;
        unit_objects(&mut descs, unit, own, objects)?;
        index = index.saturating_add(1);
    }
    Ok(descs)
}

/// The blocks of a unit.
fn unit_blocks(lists: &[BlockList], unit: usize) -> Result<&[u32], MachineNo> {
    match lists.get(unit) {
        Some(blocks) => Ok(blocks.as_slice()),
        None => Err(MachineNo::Misfit),
    }
}

/// The descriptors of a unit.
fn unit_shapes(shapes: &[Vec<ShapeRef>], unit: usize) -> Result<&[ShapeRef], MachineNo> {
    match shapes.get(unit) {
        Some(own) => Ok(own.as_slice()),
        None => Err(MachineNo::Misfit),
    }
}

/// A refusal while memory is filled, where no run can end yet.
fn filling_no(stop: Stop) -> MachineNo {
    match stop {
        Stop::NoMemory => MachineNo::NoMemory,
        Stop::Ended(_) | Stop::ReadFault | Stop::WriteFault | Stop::Misfit => MachineNo::Misfit,
    }
}

/// Fills memory with the blocks of a heap, each with the descriptor of its object.
pub(crate) fn fill(
    alloc: Global,
    memory: &mut Memory,
    program: &ProgramParts,
    shapes: &[Vec<ShapeRef>],
) -> Result<(), MachineNo> {
    let count = program.heap.count();
    let blocks = count.saturating_add(1);
    let descs = all_objects(alloc, program, shapes, blocks)?;
    for index in 0..count {
        let desc = block_of(descs.as_slice(), index.saturating_add(1))?;
        match fill_block(memory, &program.heap, index, desc) {
            Ok(()) => {}
            Err(stop) => return Err(filling_no(stop)),
        }
    }
    Ok(())
}

/// Makes one block, of so many before it, with what it holds.
fn fill_block(memory: &mut Memory, heap: &Heap, before: usize, desc: u32) -> Result<(), Stop> {
    let Ok(block) = u32::try_from(before.saturating_add(1)) else {
        return Err(Stop::Misfit);
    };
    match heap.kind(block) {
        Some(BlockKind::Function) => fill_function(memory, block),
        Some(BlockKind::Static) => {
            let given = Given {
                block,
                base: heap.base(block),
                size: heap.size(block),
            };
            fill_object(memory, heap, given, desc)
        }
        Some(BlockKind::Entry) | Some(BlockKind::Alloc) | None => Err(Stop::Misfit),
    }
}

/// A block of a heap: its number, its virtual base and its size in bytes.
#[derive(Clone, Copy)]
struct Given {
    block: u32,
    base: u32,
    size: u32,
}

/// The next block, with this number.
fn make_numbered(memory: &mut Memory, block: u32, size: u32, desc: u32) -> Result<(), Stop> {
    match memory.make(size, desc, false)? {
        Some(made) => {
            if made == block {
                Ok(())
            } else {
                Err(Stop::Misfit)
            }
        }
        None => Err(Stop::Misfit),
    }
}

/// A function.
fn fill_function(memory: &mut Memory, block: u32) -> Result<(), Stop> {
    make_numbered(memory, block, 0, FUNCTION)
}

/// An object, its words and its seal.
fn fill_object(memory: &mut Memory, heap: &Heap, given: Given, desc: u32) -> Result<(), Stop> {
    make_numbered(memory, given.block, given.size, desc)?;
    fill_words(memory, heap, given)?;
    fill_bytes(memory, heap, given)?;
    if heap.is_sealed(given.block) {
        memory.seal(given.block)
    } else {
        Ok(())
    }
}

/// The whole words of an object.
fn fill_words(memory: &mut Memory, heap: &Heap, given: Given) -> Result<(), Stop> {
    for w in 0..given.size / 4 {
        fill_word(memory, heap, given, 4 * w, Width::Four)?;
    }
    Ok(())
}

/// Its last bytes.
fn fill_bytes(memory: &mut Memory, heap: &Heap, given: Given) -> Result<(), Stop> {
    for offset in given.size / 4 * 4..given.size {
        fill_word(memory, heap, given, offset, Width::One)?;
    }
    Ok(())
}

/// What stands at an offset, where it isn't zero.
fn fill_word(
    memory: &mut Memory,
    heap: &Heap,
    given: Given,
    offset: u32,
    width: Width,
) -> Result<(), Stop> {
    let from = Word {
        value: given.base.wrapping_add(offset),
        block: given.block,
    };
    let Ok(word) = heap.read(from, width) else {
        return Err(Stop::Misfit);
    };
    if word.value == 0 && word.block == 0 {
        return Ok(());
    }
    let to = moved(memory.address(given.block), offset);
    memory.write(to, width, word)
}
