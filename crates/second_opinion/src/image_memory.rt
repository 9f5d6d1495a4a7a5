//! The memory of an image, read as it is laid out: headers of blocks, descriptors of shapes and cells.

use crate::live::{Object, Objects, add_to_sum};
use fsc_base::{Word, WordKind};
use rv_run::Machine;
use std::alloc::{AllocError, Global};

/// Where the headers begin.
const HEADERS: u32 = 0x4000_0000;

/// A word of memory; 0 where there is none.
fn word(machine: &Machine, at: u32) -> u32 {
    machine.word(at).unwrap_or(0)
}

/// The objects that are alive, where the number of blocks stands at `count`.
pub fn image_objects(alloc: Global, machine: &Machine, count: u32) -> Result<Objects, AllocError> {
    let mut objects = Objects::new(alloc);
    for before in 0..word(machine, count) {
        let header = HEADERS.wrapping_add(before.wrapping_mul(16));
        let object = Object {
            block: before.saturating_add(1),
            size: word(machine, header.wrapping_add(4)),
            desc: word(machine, header),
        };
        if object.desc > 1 {
            let cell = word(machine, header.wrapping_add(12));
            add(&mut objects, machine, object, cell)?;
        }
    }
    Ok(objects)
}

/// The line of an object.
fn add(
    objects: &mut Objects,
    machine: &Machine,
    object: Object,
    cell: u32,
) -> Result<(), AllocError> {
    objects.begin(object)?;
    let shape = object.desc / 4 * 4;
    let kinds = if object.desc < 4 {
        0
    } else {
        word(machine, shape)
    };
    for i in 0..kinds {
        objects.add_kind(kind_at(machine, shape, i))?;
    }
    objects.finish(sum_of(machine, object, cell, kinds))
}

/// The kind of a word of a shape.
fn kind_at(machine: &Machine, shape: u32, i: u32) -> WordKind {
    let four = word(machine, shape.wrapping_add(4).wrapping_add(i / 4 * 4));
    if four.wrapping_shr(i % 4 * 8) % 256 == 0 {
        WordKind::Narrow
    } else {
        WordKind::Fat
    }
}

/// A word of a cell.
fn cell_word(machine: &Machine, cell: u32, place: u32) -> u32 {
    word(machine, cell.wrapping_add(place.wrapping_mul(4)))
}

/// The sum over the words of an object in a cell. A fat word has its base and its value one behind the other; of a narrow one the
/// base stands at the end.
fn sum_of(machine: &Machine, object: Object, cell: u32, kinds: u32) -> u32 {
    let shape = object.desc / 4 * 4;
    let words = object.told_words();
    let mut sum = 0_u32;
    let mut front = 0_u32;
    let mut back = words.wrapping_mul(2);
    for w in 0..words {
        let i = if kinds == 0 { 0 } else { w % kinds };
        let base = match kind_at(machine, shape, i) {
            WordKind::Fat => {
                front = front.wrapping_add(1);
                front.wrapping_sub(1)
            }
            WordKind::Narrow => {
                back = back.wrapping_sub(1);
                back
            }
        };
        let found = Word {
            value: cell_word(machine, cell, front),
            block: cell_word(machine, cell, base),
        };
        front = front.wrapping_add(1);
        sum = add_to_sum(sum, found);
    }
    sum
}
