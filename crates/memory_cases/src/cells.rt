//! Cells of a region, and what C's accesses do by their layouts.

ghost use Rattle.std.specs.Prelude.{IsTrue};
ghost use Rattle.access_methods.specs.Accesses.{IsCopyable, IsDecidedAt, IsUndecidedAt};

use crate::call::Call;
use crate::told::{
    Told, tell, tell_copied, tell_number, tell_numbers, tell_read, tell_whether, tell_written,
};
use access_methods::{copy, read, write};
use case_table::{NoStep, number_of};
use cell_store::{CellStore, Full};
use lazy_type::decide;
use std::alloc::Global;
use type_desc::Shapes;

/// The descriptor of an object that is undecided.
pub const UNDECIDED: u32 = 2;

/// Whether a block is no live object, or decided.
pub fn is_decided(store: &CellStore, block: u32) -> bool
    ensures { IsTrue result → IsDecidedAt store.now block }
{
    !store.is_live(block) || store.header(block).desc != UNDECIDED
}

/// Whether a block is a live object and undecided.
fn is_undecided(store: &CellStore, block: u32) -> bool
    ensures { IsTrue result → IsUndecidedAt store.now block }
{
    store.is_live(block) && store.header(block).desc == UNDECIDED
}

/// Whether bytes may be copied from one block to another: the target is decided, or both are undecided.
pub fn is_copyable(store: &CellStore, to: u32, from: u32) -> bool
    ensures { IsTrue result → IsCopyable store.now to from }
{
    is_decided(store, to) || (is_undecided(store, to) && is_undecided(store, from))
}

/// What came of making a block.
fn tell_made(alloc: Global, made: Result<u32, Full>) -> Told {
    match made {
        Ok(block) => tell_number(alloc, u64::from(block)),
        Err(Full) => tell(alloc, "full"),
    }
}

/// Makes an object.
fn make(store: &mut CellStore, alloc: Global, size: u32, desc: u32) -> Told {
    if desc < UNDECIDED {
        return Err(NoStep::Malformed("no descriptor of an object"));
    }
    tell_made(alloc, store.make(size, desc))
}

/// Ends the life of an object, where it is alive.
fn kill(store: &mut CellStore, alloc: Global, block: u32) -> Told {
    if !store.is_live(block) {
        return tell(alloc, "not alive");
    }
    store.drop_cell(block);
    tell(alloc, "ok")
}

/// Seals an object, where it is alive and its descriptor stands for a shape.
fn seal(store: &mut CellStore, alloc: Global, block: u32) -> Told {
    if !store.is_live(block) {
        return tell(alloc, "not alive");
    }
    let desc = store.header(block).desc;
    if desc < 4 || desc % 4 != 0 {
        return tell(alloc, "no shape");
    }
    store.seal(block);
    tell(alloc, "ok")
}

/// The answer to a call.
pub fn answer(store: &mut CellStore, shapes: &Shapes, alloc: Global, call: Call) -> Told {
    match call {
        Call::Function => tell_made(alloc, store.make(0, 1)),
        Call::Make { size, desc, .. } => make(store, alloc, size, desc),
        Call::Kill(block) => kill(store, alloc, block),
        Call::Seal(block) => seal(store, alloc, block),
        Call::Read(at, width) => tell_read(alloc, read(store, shapes, at, width)),
        Call::Write(at, _, _) if !is_decided(store, at.block) => tell(alloc, "undecided"),
        Call::Write(at, width, what) => {
            tell_written(alloc, write(store, shapes, at, width, what))
        }
        Call::Copy { to, from, .. } if !is_copyable(store, to.block, from.block) => {
            tell(alloc, "undecided")
        }
        Call::Copy { to, from, count } => {
            tell_copied(alloc, copy(alloc, store, shapes, to, from, count))
        }
        Call::Size(block) if store.is_made(block) => {
            tell_number(alloc, u64::from(store.header(block).size))
        }
        Call::Base(block) if store.is_made(block) => {
            tell_number(alloc, u64::from(store.header(block).base))
        }
        Call::Size(_) | Call::Base(_) => tell(alloc, "none"),
    }
}

/// The header of a block: its descriptor, its size, its base and the address of its cell.
fn tell_header(store: &CellStore, alloc: Global, block: u32) -> Told {
    if !store.is_made(block) {
        return tell(alloc, "none");
    }
    let header = store.header(block);
    tell_numbers(alloc, &[header.desc, header.size, header.base, header.cell])
}

/// Gives a live object a descriptor.
fn set_desc(store: &mut CellStore, alloc: Global, block: u32, desc: u32) -> Told {
    if !store.is_live(block) {
        return tell(alloc, "not alive");
    }
    if desc < 2 {
        return Err(NoStep::Malformed("no descriptor of an object"));
    }
    store.set_desc(block, desc);
    tell(alloc, "ok")
}

/// Decides a live object. The descriptor that it then has.
fn decided(store: &mut CellStore, alloc: Global, block: u32, desc: u32) -> Told {
    if !store.is_live(block) {
        return tell(alloc, "not alive");
    }
    if desc < 4 || desc % 4 != 0 {
        return Err(NoStep::Malformed("no descriptor of a shape"));
    }
    decide(store, block, desc);
    tell_header(store, alloc, block)
}

/// A word of a cell.
fn cell_word(store: &CellStore, alloc: Global, block: u32, index: u32) -> Told {
    if !store.is_live(block) {
        return tell(alloc, "not alive");
    }
    if u64::from(index) >= 2 * ((u64::from(store.header(block).size) + 3) / 4) {
        return tell(alloc, "none");
    }
    tell_number(alloc, u64::from(store.word(block, index)))
}

/// Makes a value a word of a cell.
fn set_cell_word(store: &mut CellStore, alloc: Global, block: u32, index: u32, value: u32) -> Told {
    if !store.is_live(block) {
        return tell(alloc, "not alive");
    }
    if u64::from(index) >= 2 * ((u64::from(store.header(block).size) + 3) / 4) {
        return tell(alloc, "none");
    }
    store.set_word(block, index, value);
    tell(alloc, "ok")
}

/// Does a step that only cells have.
pub fn step(store: &mut CellStore, alloc: Global, words: &[&str]) -> Told {
    match words {
        ["header", block] => tell_header(store, alloc, number_of(block)?),
        ["live", block] => tell_whether(alloc, store.is_live(number_of(block)?)),
        ["made"] => tell_number(alloc, u64::from(store.made())),
        ["decide", block, desc] => decided(store, alloc, number_of(block)?, number_of(desc)?),
        ["set_desc", block, desc] => set_desc(store, alloc, number_of(block)?, number_of(desc)?),
        ["cell", block, index] => cell_word(store, alloc, number_of(block)?, number_of(index)?),
        ["set_cell", block, index, value] => {
            let (block, index) = (number_of(block)?, number_of(index)?);
            set_cell_word(store, alloc, block, index, number_of(value)?)
        }
        ["region_words", from, count] => {
            let (from, count) = (number_of(from)? as usize, number_of(count)? as usize);
            let part = store.words().get(from..from.saturating_add(count));
            tell_numbers(alloc, part.unwrap_or(&[]))
        }
        _ => Ok(None),
    }
}
