//! Copies, by the layouts of the blocks' cells.

ghost use Rattle.std.specs.Prelude.{◌≡◌, OnErr};
ghost use Rattle.c_memory.specs.Blocks.{Heap};
ghost use Rattle.c_memory.specs.Copying.{copy_of};
ghost use Rattle.cell_store.specs.Store.{Holds};
ghost use Rattle.access_methods.specs.Accesses.{Copies, IsCopyable};
ghost use Rattle.access_methods.specs.Shaped.{layouts_of};

use crate::form::{Form, form_of};
use crate::locate::locate;
use crate::taken::take_from;
use c_memory::CopyNo;
use cell_store::CellStore;
use fsc_base::Word;
use std::alloc::Global;
use type_desc::Shapes;

/// Copies `n` bytes from one word's offset to another's. All bytes are read before any is written. A word of the target
/// that is covered whole, from a multiple of 4, takes the base of its source word; every other word that is touched loses
/// its base. A copy of 0 bytes does nothing and tests nothing. The target's block, where it is a live object, is to be
/// decided, or both blocks undecided.
///
/// Refused exactly where the source's bytes are not all within a live object, else where the target's are not, else where
/// the target is sealed; and for want of memory. Nothing is changed then. It takes memory for what is copied, and time in
/// proportion to `n`.
pub fn copy(
    alloc: Global,
    store: &mut CellStore,
    shapes: &Shapes,
    to: Word,
    from: Word,
    n: u32,
) -> Result<(), CopyNo>
    requires decided { IsCopyable store.old to.block from.block }
    ensures kept { OnErr result (store.new ≡ store.old) }
    ensures copies { (heap : Heap) → Holds store.old heap (layouts_of shapes.now) → Copies (copy_of heap to from n) (layouts_of shapes.now) store.new result }
{
    if n == 0 {
        return Ok(());
    }
    let source = match locate(store, from, n) {
        Ok(spot) => spot,
        Err(outside) => return Err(CopyNo::Outside(outside)),
    };
    let target = match locate(store, to, n) {
        Ok(spot) => spot,
        Err(outside) => return Err(CopyNo::Outside(outside)),
    };
    match form_of(shapes, target.desc) {
        Form::Open(layout) => {
            let taken = take_from(alloc, store, shapes, &source, target.offset, n)?;
            target.object(layout).put(
                store,
                target.offset,
                taken.bytes.as_slice(),
                taken.bases.as_slice(),
            );
            Ok(())
        }
        Form::Sealed(_) => Err(CopyNo::ReadOnly(target.refused(n))),
        Form::Undecided => Ok(()),
    }
}
