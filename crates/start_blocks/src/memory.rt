//! Memory at the start of a run: all blocks are made, in the order of their numbers; then the objects get their pieces, and then some
//! are sealed.

use crate::numbers::BlockNumbers;
use crate::refusal::StartNo;
use crate::view::{LinkObject, LinkPiece, LinkValue, LinkView};
use byte_blocks::{Heap, MakeNo};
use c_memory::BlockKind;
use c_ops::Operator;
use fsc_base::Word;
use std::alloc::Global;

/// A word without a base.
fn plain(value: u32) -> Word {
    Word { value, block: 0 }
}

/// The address of a block that is alive; null for every other number.
pub fn address(heap: &Heap, block: u32) -> Word {
    match heap.kind(block) {
        Some(_) => Word {
            value: heap.base(block),
            block,
        },
        None => plain(0),
    }
}

/// An address so many bytes behind a word.
fn behind(at: Word, offset: u32) -> Word {
    match Operator::Add.apply(at, plain(offset)) {
        Some(word) => word,
        None => at,
    }
}

// ---- making

fn made(answer: Result<u32, MakeNo>) -> Result<(), StartNo> {
    match answer {
        Ok(_) => Ok(()),
        Err(MakeNo::Full) => Err(StartNo::Full),
        Err(MakeNo::NoMemory) => Err(StartNo::NoMemory),
    }
}

fn make_functions(heap: &mut Heap, count: u32) -> Result<(), StartNo> {
    'functions: for _ in 0..count {
        made(heap.create(0, BlockKind::Function))?;
    }
    Ok(())
}

fn make_objects(heap: &mut Heap, objects: &[LinkObject]) -> Result<(), StartNo> {
    'objects: for object in objects {
        made(heap.create(object.size, BlockKind::Static))?;
    }
    Ok(())
}

fn make_blocks(heap: &mut Heap, units: &[LinkView]) -> Result<(), StartNo> {
    'units: for unit in units {
        make_functions(heap, unit.functions)?;
        make_objects(heap, unit.objects.as_slice())?;
    }
    Ok(())
}

// ---- pieces

/// What the pieces of a unit may name: the blocks of its symbols and of its objects.
#[derive(Clone, Copy)]
struct Named<'a> {
    symbols: &'a [u32],
    objects: &'a [u32],
}

/// The address so many bytes behind the block with an index in a list.
fn address_in(heap: &Heap, blocks: &[u32], index: u32, offset: u32) -> Result<Word, StartNo> {
    match blocks.get(index as usize) {
        Some(block) => Ok(behind(address(heap, *block), offset)),
        None => Err(StartNo::Misfit),
    }
}

/// The word that a value is.
fn word_of(heap: &Heap, named: Named<'_>, value: LinkValue) -> Result<Word, StartNo> {
    match value {
        LinkValue::Number(value) => Ok(plain(value)),
        LinkValue::Symbol { symbol, offset } => address_in(heap, named.symbols, symbol, offset),
        LinkValue::Object { object, offset } => address_in(heap, named.objects, object, offset),
    }
}

/// A piece of the object with this block, which it lies in.
fn put_piece(
    heap: &mut Heap,
    named: Named<'_>,
    block: u32,
    piece: LinkPiece,
) -> Result<(), StartNo> {
    let at = behind(address(heap, block), piece.offset);
    let word = word_of(heap, named, piece.value)?;
    heap.write(at, piece.width, word)
        .map_err(|_| StartNo::Misfit)
}

fn put_pieces(
    heap: &mut Heap,
    named: Named<'_>,
    block: u32,
    pieces: &[LinkPiece],
) -> Result<(), StartNo> {
    'pieces: for piece in pieces {
        put_piece(heap, named, block, *piece)?;
    }
    Ok(())
}

fn put_objects(heap: &mut Heap, named: Named<'_>, objects: &[LinkObject]) -> Result<(), StartNo> {
    'objects: for (block, object) in named.objects.iter().zip(objects) {
        put_pieces(heap, named, *block, object.pieces.as_slice())?;
    }
    Ok(())
}

/// The blocks that the pieces of a unit may name.
fn named_in(numbers: &BlockNumbers, unit: usize) -> Result<Named<'_>, StartNo> {
    match (numbers.symbols.get(unit), numbers.objects.get(unit)) {
        (Some(symbols), Some(objects)) => Ok(Named {
            symbols: symbols.as_slice(),
            objects: objects.as_slice(),
        }),
        _ => Err(StartNo::Misfit),
    }
}

fn fill_units(heap: &mut Heap, units: &[LinkView], numbers: &BlockNumbers) -> Result<(), StartNo> {
    'units: for (i, unit) in units.iter().enumerate() {
        let named = named_in(numbers, i)?;
        put_objects(heap, named, unit.objects.as_slice())?;
    }
    Ok(())
}

// ---- seals

/// An object refuses writes from now on.
fn seal(heap: &mut Heap, block: u32) -> Result<(), StartNo> {
    match heap.kind(block) {
        Some(BlockKind::Static) => {
            heap.seal(block);
            Ok(())
        }
        _ => Err(StartNo::Misfit),
    }
}

fn seal_objects(heap: &mut Heap, blocks: &[u32], objects: &[LinkObject]) -> Result<(), StartNo> {
    'objects: for (block, object) in blocks.iter().zip(objects) {
        if object.is_sealed {
            seal(heap, *block)?;
        }
    }
    Ok(())
}

fn seal_units(heap: &mut Heap, units: &[LinkView], numbers: &BlockNumbers) -> Result<(), StartNo> {
    'units: for (i, unit) in units.iter().enumerate() {
        let named = named_in(numbers, i)?;
        seal_objects(heap, named.objects, unit.objects.as_slice())?;
    }
    Ok(())
}

// ---- the start

/// Memory at the start of a program of units in link order with these numbers. Refused with `Full` where the blocks don't fit, with
/// `Misfit` where a piece names nothing or lies outside of its object, or with `NoMemory`. It takes time and memory for all bytes of
/// the objects.
pub fn start_heap(
    alloc: Global,
    units: &[LinkView],
    numbers: &BlockNumbers,
) -> Result<Heap, StartNo> {
    let mut heap = Heap::new(alloc);
    make_blocks(&mut heap, units)?;
    fill_units(&mut heap, units, numbers)?;
    seal_units(&mut heap, units, numbers)?;
    Ok(heap)
}
