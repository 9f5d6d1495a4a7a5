//! The rules of linking on counts: M05 (too many nodes or struct and union types) and M06 (the blocks don't fit).

use crate::refusal::above;
use c_link::LinkFault;
use c_memory::{CLASSES, FIRST_BASE, HEADER_BYTES, MOST_BASE, MOST_STORED};
use fsc_base::{NoMemory, Rule};
use start_blocks::{LinkObject, LinkView};
use std::alloc::Global;

/// The most nodes that the units of a program have together.
const MOST_NODES: u64 = 0x4_0000;

/// The most struct and union types that they have.
const MOST_RECORDS: u64 = 0x1_0000;

/// A fault where a count is above its limit.
fn limited(
    alloc: Global,
    rule: Rule,
    count: u64,
    limit: u64,
) -> Result<Option<LinkFault>, NoMemory> {
    if limit < count {
        Ok(Some(above(alloc, rule, count, limit)?))
    } else {
        Ok(None)
    }
}

fn nodes_of(views: &[LinkView]) -> u64 {
    let mut count: u64 = 0;
    'units: for view in views {
        count = count.saturating_add(view.nodes);
    }
    count
}

fn records_of(views: &[LinkView]) -> u64 {
    let mut count: u64 = 0;
    'units: for view in views {
        count = count.saturating_add(view.records);
    }
    count
}

/// M05: too many nodes, or, where these are within their limit, too many struct and union types.
pub(crate) fn first_m05(alloc: Global, views: &[LinkView]) -> Result<Option<LinkFault>, NoMemory> {
    let fault = limited(alloc, Rule::M05, nodes_of(views), MOST_NODES)?;
    if fault.is_some() {
        return Ok(fault);
    }
    limited(alloc, Rule::M05, records_of(views), MOST_RECORDS)
}

/// What blocks take that live at once: the bytes that are stored, and how far the virtual base of the next block lies behind that of
/// the first. Both stand still at 2^64 - 1.
#[derive(Clone, Copy)]
struct Taken {
    stored: u64,
    bases: u64,
}

/// The size of the cell of a block of so many bytes: the least class that has two words for each of its words.
fn cell_of(size: u32) -> u64 {
    let least = u64::from(size).div_ceil(4) * 8;
    let mut cell = u64::MAX;
    'classes: for class in CLASSES {
        if least <= class && class < cell {
            cell = class;
        }
    }
    cell
}

/// How far the base of the next block lies behind that of one of so many bytes.
fn span_of(size: u32) -> u64 {
    u64::from(size).div_ceil(16) * 16 + 16
}

impl Taken {
    /// So many more blocks of so many bytes.
    fn with(self, count: u64, size: u32) -> Taken {
        let stored = cell_of(size)
            .saturating_add(HEADER_BYTES)
            .saturating_mul(count);
        Taken {
            stored: self.stored.saturating_add(stored),
            bases: self
                .bases
                .saturating_add(span_of(size).saturating_mul(count)),
        }
    }

    fn with_objects(self, objects: &[LinkObject]) -> Taken {
        let mut taken = self;
        'objects: for object in objects {
            taken = taken.with(1, object.size);
        }
        taken
    }
}

/// What the blocks of all units take, as if each had been made.
fn taken_by(views: &[LinkView]) -> Taken {
    let mut taken = Taken {
        stored: 0,
        bases: FIRST_BASE,
    };
    'units: for view in views {
        taken = taken
            .with(u64::from(view.functions), 0)
            .with_objects(view.objects.as_slice());
    }
    taken
}

/// M06: the blocks don't fit the storage, or, where they do, the virtual bases.
pub(crate) fn first_m06(alloc: Global, views: &[LinkView]) -> Result<Option<LinkFault>, NoMemory> {
    let taken = taken_by(views);
    let fault = limited(alloc, Rule::M06, taken.stored, MOST_STORED)?;
    if fault.is_some() {
        return Ok(fault);
    }
    limited(alloc, Rule::M06, taken.bases, MOST_BASE)
}
