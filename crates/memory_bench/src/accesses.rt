//! The times of reads and writes.

ghost use Rattle.std.specs.Prelude.{IsTrue};
ghost use Rattle.access_methods.specs.Accesses.{IsDecidedAt};

use crate::plan::{ACCESSES, Access, BLOCK_SIZES, LAYOUTS, Layout, out_of_memory, shapes};
use access_methods::{read, write};
use cell_store::CellStore;
use fsc_base::{Width, Word};
use std::alloc::Global;
use std::io;
use std::rt::Runtime;
use std::time::Instant;
use type_desc::Shapes;

/// How many bytes the region has: room for a block of 16 MB with its bases, and for its header.
const REGION: u32 = 0x400_0000;

/// Times so many reads and writes of each kind, under each layout, in a block of each size.
pub fn time_accesses(rt: &impl Runtime, alloc: Global, calls: u32) -> io::Result<()> {
    let shapes = shapes(alloc).map_err(out_of_memory)?;
    for size in BLOCK_SIZES {
        let mut store = CellStore::new(alloc, REGION).map_err(out_of_memory)?;
        if let Ok(block) = store.make(size, 3) {
            time_block(rt, &mut store, &shapes, block, calls)?;
        }
    }
    Ok(())
}

/// Times the accesses of a block.
fn time_block(
    rt: &impl Runtime,
    store: &mut CellStore,
    shapes: &Shapes,
    block: u32,
    calls: u32,
) -> io::Result<()> {
    for layout in LAYOUTS {
        decide(store, block, layout);
        for access in ACCESSES {
            if let Some(walk) = Walk::of(store, shapes, block, access) {
                time_writes(rt, store, &walk, layout, calls)?;
                time_reads(rt, store, &walk, layout, calls)?;
            }
        }
    }
    Ok(())
}

/// Gives a block a layout.
fn decide(store: &mut CellStore, block: u32, layout: Layout) {
    if store.is_live(block) && layout.desc >= 2 {
        store.set_desc(block, layout.desc);
    }
}

/// Times the writes of one kind.
fn time_writes(
    rt: &impl Runtime,
    store: &mut CellStore,
    walk: &Walk<'_>,
    layout: Layout,
    calls: u32,
) -> io::Result<()> {
    let start = Instant::now(rt)?;
    let done = walk.writes(store, calls);
    let took = start.elapsed(rt)?.as_nanos();
    println!(rt;
        "write {} {} {} {done} {took}",
        layout.name, walk.access.name, walk.size
    )
}

/// Times the reads of one kind.
fn time_reads(
    rt: &impl Runtime,
    store: &CellStore,
    walk: &Walk<'_>,
    layout: Layout,
    calls: u32,
) -> io::Result<()> {
    let start = Instant::now(rt)?;
    let (done, sum) = walk.reads(store, calls);
    let took = start.elapsed(rt)?.as_nanos();
    println!(rt;
        "read {} {} {} {done} {took} {sum}",
        layout.name, walk.access.name, walk.size
    )
}

/// Accesses that walk through a block word by word, again and again.
#[derive(Clone, Copy)]
struct Walk<'a> {
    shapes: &'a Shapes,
    block: u32,
    base: u32,
    size: u32,
    access: Access,
}

impl<'a> Walk<'a> {
    /// The walk through a block, if it was made.
    fn of(store: &CellStore, shapes: &'a Shapes, block: u32, access: Access) -> Option<Walk<'a>> {
        if !store.is_made(block) {
            return None;
        }
        let header = store.header(block);
        Some(Walk {
            shapes,
            block,
            base: header.base,
            size: header.size,
            access,
        })
    }

    /// The word that stands for an offset.
    fn at(&self, offset: u32) -> Word {
        Word {
            value: self.base.wrapping_add(offset),
            block: self.block,
        }
    }

    /// The offset behind one, so that the access lies within the block.
    fn next(&self, offset: u32) -> u32 {
        let next = offset.wrapping_add(4);
        if next < self.size.saturating_sub(4) {
            next
        } else {
            self.access.shift
        }
    }

    /// Writes so often. How many writes were done.
    fn writes(&self, store: &mut CellStore, calls: u32) -> u32 {
        let mut done: u32 = 0;
        let mut offset = self.access.shift;
        for k in 0..calls {
            let what = self.at(k);
            if is_written(store, self.shapes, self.at(offset), self.access.width, what) {
                done = done.wrapping_add(1);
            }
            offset = self.next(offset);
        }
        done
    }

    /// Reads so often. How many reads were done, and the sum of what they gave.
    fn reads(&self, store: &CellStore, calls: u32) -> (u32, u32) {
        let (mut done, mut sum) = (0_u32, 0_u32);
        let mut offset = self.access.shift;
        for _ in 0..calls {
            if let Ok(word) = read(store, self.shapes, self.at(offset), self.access.width) {
                done = done.wrapping_add(1);
                sum = sum.wrapping_add(word.value).wrapping_add(word.block);
            }
            offset = self.next(offset);
        }
        (done, sum)
    }
}

/// Writes a word where its block was made and is decided. Whether it was written.
fn is_written(store: &mut CellStore, shapes: &Shapes, at: Word, width: Width, what: Word) -> bool {
    if can_write(store, at.block) {
        write(store, shapes, at, width, what).is_ok()
    } else {
        false
    }
}

/// Whether a block was made and is decided, so that a write may ask for it.
fn can_write(store: &CellStore, block: u32) -> bool
    ensures { IsTrue result → IsDecidedAt store.now block }
{
    store.is_made(block) && store.header(block).desc != 2
}
