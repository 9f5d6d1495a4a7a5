//! Cells of the blocks at the start of a run.

use byte_blocks::Heap;
use c_memory::CLASSES;
use fsc_base::{Width, Word};
use rv_asm::AsmNo;
use std::alloc::Global;
use type_desc::{Shape, place};

/// The most words of a block: those of 2^32 bytes.
const MOST_WORDS: u32 = 1 << 30;

/// How many words of 4 bytes so many bytes touch.
pub fn words_of(bytes: u32) -> u32 {
    bytes / 4 + u32::from(bytes % 4 != 0)
}

/// The size of the cell of a block of so many bytes: the least class that has room for a value and a base of each word.
pub fn class_of(size: u32) -> Option<u32> {
    let needed = 8 * u64::from(words_of(size));
    let class = CLASSES.iter().find(|class| needed <= **class)?;
    u32::try_from(*class).ok()
}

/// A byte of a block, moved up by so many bytes.
fn byte_at(heap: &Heap, at: Word, moved: u32) -> Result<u32, AsmNo> {
    match heap.read(at, Width::One) {
        Err(_) => Err(AsmNo::Misfit),
        Ok(byte) => Ok(byte.value.wrapping_shl(moved.wrapping_mul(8))),
    }
}

/// The last word of a block, of which fewer than four bytes are there. It has no base.
fn last_word(heap: &Heap, at: Word, bytes: u32) -> Result<Word, AsmNo> {
    let mut value = 0;
    for k in 0..bytes.min(3) {
        let next = Word {
            value: at.value.wrapping_add(k),
            block: at.block,
        };
        value |= byte_at(heap, next, k)?;
    }
    Ok(Word { value, block: 0 })
}

/// The word of a block at an address, of which so many bytes are there.
fn word_at(heap: &Heap, at: Word, bytes: u32) -> Result<Word, AsmNo> {
    if bytes < 4 {
        return last_word(heap, at, bytes);
    }
    match heap.read(at, Width::Four) {
        Err(_) => Err(AsmNo::Misfit),
        Ok(word) => Ok(word),
    }
}

/// Puts a word at an index.
fn put(words: &mut [u32], index: u32, word: u32) -> Result<(), AsmNo> {
    let index = index as usize;
    if words.len() <= index {
        return Err(AsmNo::Misfit);
    }
    words[index] = word;
    Ok(())
}

/// Puts the value and the base of a word at their places.
fn put_word(words: &mut [u32], shape: &Shape, total: u32, w: u32, word: Word) -> Result<(), AsmNo> {
    if total <= w || MOST_WORDS < total {
        return Err(AsmNo::Misfit);
    }
    let (value, base) = place(shape, total, w);
    put(words, value, word.value)?;
    put(words, base, word.block)
}

/// The words of the cell of an object of this size at a virtual base.
pub fn object_cell(
    alloc: Global,
    heap: &Heap,
    shape: &Shape,
    at: Word,
    size: u32,
) -> Result<Vec<u32>, AsmNo> {
    let Some(class) = class_of(size) else {
        return Err(AsmNo::Misfit);
    };
    let mut words = vec![in alloc; 0; (class / 4) as usize]?;
    let total = words_of(size);
    for w in 0..total {
        fill_word(&mut words, heap, shape, at, size, w)?;
    }
    Ok(words)
}

/// Puts the word with a number of an object into its cell.
fn fill_word(
    words: &mut Vec<u32>,
    heap: &Heap,
    shape: &Shape,
    at: Word,
    size: u32,
    w: u32,
) -> Result<(), AsmNo> {
    let offset = w.wrapping_mul(4);
    let next = Word {
        value: at.value.wrapping_add(offset),
        block: at.block,
    };
    let word = word_at(heap, next, size.wrapping_sub(offset))?;
    put_word(words.as_mut_slice(), shape, words_of(size), w, word)
}
