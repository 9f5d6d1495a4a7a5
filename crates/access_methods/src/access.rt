//! Reads and writes, by the layouts of the blocks' cells.

ghost use Rattle.std.specs.Prelude.{◌≡◌, OnErr};
ghost use Rattle.c_memory.specs.Access.{read_of, write_of};
ghost use Rattle.c_memory.specs.Blocks.{Heap};
ghost use Rattle.cell_store.specs.Store.{Holds};
ghost use Rattle.access_methods.specs.Accesses.{IsDecidedAt, Writes};
ghost use Rattle.access_methods.specs.Shaped.{layouts_of};

use crate::form::{Form, form_of};
use crate::locate::{byte_count, locate};
use c_memory::{Outside, WriteNo};
use cell_store::CellStore;
use fsc_base::{Width, Word};
use type_desc::Shapes;

/// What a read gives: the bytes from the word's offset on, and a base only where it is a whole word at a multiple of 4. An
/// undecided block reads as zero. Refused exactly where the bytes are not all within a live object. It takes no memory and
/// a bounded number of steps.
pub fn read(store: &CellStore, shapes: &Shapes, at: Word, width: Width) -> Result<Word, Outside>
    ensures { (heap : Heap) → Holds store.now heap (layouts_of shapes.now) → result ≡ read_of heap at width }
{
    let spot = locate(store, at, byte_count(width))?;
    match form_of(shapes, spot.desc) {
        Form::Undecided => Ok(Word { value: 0, block: 0 }),
        Form::Open(layout) => Ok(spot.object(layout).read(store, spot.offset, width)),
        Form::Sealed(layout) => Ok(spot.object(layout).read(store, spot.offset, width)),
    }
}

/// Writes the lowest bytes of a word at another word's offset. The base is kept only where it is a whole word at a multiple
/// of 4; else each word that is touched loses its base. The block, where it is a live object, is to be decided.
///
/// Refused exactly where the bytes are not all within a live object, or where they are and it is sealed; nothing is changed
/// then. It takes no memory and a bounded number of steps.
pub fn write(
    store: &mut CellStore,
    shapes: &Shapes,
    at: Word,
    width: Width,
    what: Word,
) -> Result<(), WriteNo>
    requires decided { IsDecidedAt store.old at.block }
    ensures kept { OnErr result (store.new ≡ store.old) }
    ensures writes { (heap : Heap) → Holds store.old heap (layouts_of shapes.now) → Writes (write_of heap at width what) (layouts_of shapes.now) store.new result }
{
    let n = byte_count(width);
    let spot = match locate(store, at, n) {
        Ok(spot) => spot,
        Err(outside) => return Err(WriteNo::Outside(outside)),
    };
    match form_of(shapes, spot.desc) {
        Form::Open(layout) => {
            spot.object(layout).write(store, spot.offset, width, what);
            Ok(())
        }
        Form::Sealed(_) => Err(WriteNo::ReadOnly(spot.refused(n))),
        Form::Undecided => Ok(()),
    }
}
