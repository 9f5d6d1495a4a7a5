//! The memory of the machine of fat code.

use crate::live::{Object, Objects, add_to_sum};
use access_methods::read;
use fat_machine::FatMachine;
use fsc_base::{Width, Word};
use std::alloc::{AllocError, Global};

/// The objects that are alive.
pub fn fat_objects(alloc: Global, machine: &FatMachine<'_>) -> Result<Objects, AllocError> {
    let mut objects = Objects::new(alloc);
    let store = machine.store();
    for before in 0..store.made() {
        let block = before.saturating_add(1);
        if store.is_made(block) {
            let header = store.header(block);
            let object = Object {
                block,
                size: header.size,
                desc: header.desc,
            };
            if object.desc > 1 {
                add(&mut objects, machine, object, header.base)?;
            }
        }
    }
    Ok(objects)
}

/// The line of an object.
fn add(
    objects: &mut Objects,
    machine: &FatMachine<'_>,
    object: Object,
    base: u32,
) -> Result<(), AllocError> {
    objects.begin(object)?;
    if let Some(shape) = machine.shapes().get(object.desc / 4 * 4) {
        for kind in shape.kinds() {
            objects.add_kind(*kind)?;
        }
    }
    let mut sum = 0_u32;
    for w in 0..object.told_words() {
        sum = add_to_sum(sum, word_of(machine, object, base, w));
    }
    objects.finish(sum)
}

/// A word of an object, the last one filled up with zero bytes.
fn word_of(machine: &FatMachine<'_>, object: Object, base: u32, w: u32) -> Word {
    let offset = w.wrapping_mul(4);
    let value = base.wrapping_add(offset);
    let at = Word {
        value,
        block: object.block,
    };
    match read(machine.store(), machine.shapes(), at, Width::Four) {
        Ok(word) => word,
        Err(_) => last_bytes(machine, at),
    }
}

/// The bytes from a word on, of which at most three are within.
fn last_bytes(machine: &FatMachine<'_>, at: Word) -> Word {
    let mut value = 0_u32;
    for i in 0..3_u32 {
        let byte = Word {
            value: at.value.wrapping_add(i),
            block: at.block,
        };
        if let Ok(word) = read(machine.store(), machine.shapes(), byte, Width::One) {
            value = value.wrapping_add(word.value.wrapping_shl(i.wrapping_mul(8)));
        }
    }
    Word { value, block: 0 }
}
