//! Sequences of calls without a pattern, on blocks of every form: both kinds of memory have to answer them alike.

use crate::call::Call;
use crate::reading::base_in;
use crate::told::{Told, tell};
use crate::twins::Twins;
use c_memory::BlockKind;
use case_table::{NoStep, number_of};
use fsc_base::{Width, Word};
use std::alloc::Global;
use type_desc::Shapes;

/// How many calls a sequence has.
const CALLS: u32 = 100;

/// Numbers without a pattern, the same for the same seed: x times 1664525 plus 1013904223, modulo 2^32, its upper bits.
#[derive(Drop)]
struct Numbers {
    state: u32,
}

impl Numbers {
    /// A number below another.
    fn below(&mut self, limit: u32) -> u32 {
        self.state = self
            .state
            .wrapping_mul(1_664_525)
            .wrapping_add(1_013_904_223);
        if limit == 0 {
            0
        } else {
            (self.state >> 8) % limit
        }
    }

    fn width(&mut self) -> Width {
        match self.below(3) {
            0 => Width::One,
            1 => Width::Two,
            _ => Width::Four,
        }
    }

    /// A word near a block's bytes, or of a block that was not made.
    fn word(&mut self, bases: &[u32], lowest: u32, limit: u32) -> Word {
        let block = self.below(11);
        let offset = self.below(limit).wrapping_sub(lowest);
        Word {
            value: base_in(bases, block).wrapping_add(offset),
            block,
        }
    }

    /// An access or a copy, some of them not within.
    fn call(&mut self, bases: &[u32]) -> Call {
        let kind = self.below(4);
        let at = self.word(bases, 2, 34);
        let from = self.word(bases, 0, 30);
        match kind {
            0 => Call::Read(at, self.width()),
            1 => Call::Copy {
                to: at,
                from,
                count: self.below(20),
            },
            _ => Call::Write(at, self.width(), from),
        }
    }
}

/// Whether both answer a call alike, or it waits for a descriptor.
fn is_alike(twins: &mut Twins, alloc: Global, shapes: &Shapes, call: Call) -> Result<bool, NoStep> {
    match twins.answer(alloc, shapes, call)? {
        Some(answer) => Ok(!answer.starts_with("blocks")),
        None => Ok(false),
    }
}

/// A function, objects of every layout, an object that is sealed (7), one that is undecided (8) and one that is dead (9).
fn make_forms(
    twins: &mut Twins,
    alloc: Global,
    shapes: &Shapes,
    numbers: &mut Numbers,
) -> Result<bool, NoStep> {
    let mut alike = is_alike(twins, alloc, shapes, Call::Function)?;
    for desc in [3, 4, 8, 12, 16, 12, 2, 8] {
        let call = Call::Make {
            size: numbers.below(30).wrapping_add(1),
            desc,
            kind: BlockKind::Alloc,
        };
        alike = is_alike(twins, alloc, shapes, call)? && alike;
    }
    for call in [Call::Seal(7), Call::Kill(9)] {
        alike = is_alike(twins, alloc, shapes, call)? && alike;
    }
    Ok(alike)
}

/// Whether a sequence of calls, and then all reads, are answered alike.
fn sequence(alloc: Global, shapes: &Shapes, seed: u32) -> Result<bool, NoStep> {
    let mut numbers = Numbers { state: seed };
    let mut twins = Twins::new(alloc)?;
    if !make_forms(&mut twins, alloc, shapes, &mut numbers)? {
        return Ok(false);
    }
    for _ in 0..CALLS {
        let call = numbers.call(twins.bases());
        if !is_alike(&mut twins, alloc, shapes, call)? {
            return Ok(false);
        }
    }
    for block in 0..10 {
        if twins.apart(alloc, shapes, block, 40)?.is_some() {
            return Ok(false);
        }
    }
    Ok(true)
}

/// Does the sequences of so many seeds, from one on.
fn sequences(alloc: Global, shapes: &Shapes, from: u32, count: u32) -> Told {
    for i in 0..count {
        let seed = from.wrapping_add(i);
        if !sequence(alloc, shapes, seed)? {
            return Ok(Some(format!(in alloc; "apart at seed {seed}")?));
        }
    }
    tell(alloc, "alike")
}

/// Does a step of sequences.
pub fn step(alloc: Global, words: &[&str], shapes: &Shapes) -> Told {
    match words {
        ["sequences", from, count] => {
            sequences(alloc, shapes, number_of(from)?, number_of(count)?)
        }
        _ => Ok(None),
    }
}
