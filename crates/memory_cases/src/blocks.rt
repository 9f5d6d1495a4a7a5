//! Blocks of bytes.

ghost use Rattle.std.specs.Prelude.{IsTrue};
ghost use Rattle.byte_blocks.specs.Asking.{lives, is_made};

use crate::call::Call;
use crate::reading::at_of;
use crate::told::{Told, tell, tell_copied, tell_number, tell_read, tell_written};
use byte_blocks::{Heap, MakeNo};
use c_memory::BlockKind;
use case_table::{NoStep, number_of};
use std::alloc::Global;

/// Whether a block is a live object.
fn is_live(heap: &Heap, block: u32) -> bool
    ensures { IsTrue result → IsTrue (lives heap.now block) }
{
    match heap.kind(block) {
        Some(BlockKind::Static | BlockKind::Entry | BlockKind::Alloc) => true,
        Some(BlockKind::Function) | None => false,
    }
}

/// Whether a block was made, and is no dead object.
fn is_known(heap: &Heap, block: u32) -> bool
    ensures { IsTrue result → IsTrue (is_made heap.now block) }
{
    heap.kind(block).is_some()
}

/// What came of making a block.
fn tell_made(alloc: Global, made: Result<u32, MakeNo>) -> Told {
    match made {
        Ok(block) => tell_number(alloc, u64::from(block)),
        Err(MakeNo::Full) => tell(alloc, "full"),
        Err(MakeNo::NoMemory) => Err(NoStep::NoMemory),
    }
}

/// Makes an object.
fn make(heap: &mut Heap, size: u32, kind: BlockKind) -> Result<u32, MakeNo> {
    match kind {
        BlockKind::Function => heap.create(0, BlockKind::Function),
        BlockKind::Static => heap.create(size, BlockKind::Static),
        BlockKind::Entry => heap.create(size, BlockKind::Entry),
        BlockKind::Alloc => heap.create(size, BlockKind::Alloc),
    }
}

/// Ends the life of an object, where it is alive.
fn kill(heap: &mut Heap, alloc: Global, block: u32) -> Told {
    if !is_live(heap, block) {
        return tell(alloc, "not alive");
    }
    heap.kill(block);
    tell(alloc, "ok")
}

/// Seals an object, where it is alive.
fn seal(heap: &mut Heap, alloc: Global, block: u32) -> Told {
    if !is_live(heap, block) {
        return tell(alloc, "not alive");
    }
    heap.seal(block);
    tell(alloc, "ok")
}

/// The answer to a call.
pub fn answer(heap: &mut Heap, alloc: Global, call: Call) -> Told {
    match call {
        Call::Function => tell_made(alloc, heap.create(0, BlockKind::Function)),
        Call::Make { size, kind, .. } => tell_made(alloc, make(heap, size, kind)),
        Call::Kill(block) => kill(heap, alloc, block),
        Call::Seal(block) => seal(heap, alloc, block),
        Call::Read(at, width) => tell_read(alloc, heap.read(at, width)),
        Call::Write(at, width, what) => tell_written(alloc, heap.write(at, width, what)),
        Call::Copy { to, from, count } => tell_copied(alloc, heap.copy(to, from, count)),
        Call::Size(block) if is_known(heap, block) => {
            tell_number(alloc, u64::from(heap.size(block)))
        }
        Call::Base(block) if is_known(heap, block) => {
            tell_number(alloc, u64::from(heap.base(block)))
        }
        Call::Size(_) | Call::Base(_) => tell(alloc, "none"),
    }
}

/// The name of a kind.
fn name_of(kind: Option<BlockKind>) -> &'static str {
    match kind {
        Some(BlockKind::Function) => "function",
        Some(BlockKind::Static) => "static",
        Some(BlockKind::Entry) => "entry",
        Some(BlockKind::Alloc) => "alloc",
        None => "none",
    }
}

/// Does a step that only blocks of bytes have.
pub fn step(heap: &mut Heap, alloc: Global, words: &[&str], bases: &[u32]) -> Told {
    match words {
        ["kind", block] => tell(alloc, name_of(heap.kind(number_of(block)?))),
        ["stored"] => tell_number(alloc, heap.stored()),
        ["next_base"] => tell_number(alloc, heap.next_base()),
        ["clear", at, count] => {
            let (at, count) = (at_of(at, bases)?, number_of(count)?);
            if count == 0 {
                return Err(NoStep::Malformed("a clear of no bytes"));
            }
            tell_written(alloc, heap.clear(at, count))
        }
        _ => Ok(None),
    }
}
