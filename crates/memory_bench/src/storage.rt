//! The times of makes and drops.

use crate::plan::{BLOCK_SIZES, out_of_memory};
use cell_store::CellStore;
use std::alloc::Global;
use std::io;
use std::rt::Runtime;
use std::time::Instant;

/// How many bytes the region has: room for a block of 16 MB with its bases, and for a million headers.
const REGION: u32 = 0x400_0000;

/// Times so many makes, each with its drop, of blocks of each size. For large blocks there are fewer: at most as many as
/// their virtual addresses allow.
pub fn time_storage(rt: &impl Runtime, alloc: Global, calls: u32) -> io::Result<()> {
    for size in BLOCK_SIZES {
        let mut store = CellStore::new(alloc, REGION).map_err(out_of_memory)?;
        let start = Instant::now(rt)?;
        let done = makes_and_drops(&mut store, size, calls);
        let took = start.elapsed(rt)?.as_nanos();
        println!(rt; "make+drop plane - {size} {done} {took}")?;
    }
    Ok(())
}

/// Makes and drops so many blocks, one after the other, or as many as fit. How many there were.
fn makes_and_drops(store: &mut CellStore, size: u32, calls: u32) -> u32 {
    for done in 0..calls {
        match store.make(size, 3) {
            Ok(block) if store.is_live(block) => store.drop_cell(block),
            _ => return done,
        }
    }
    calls
}
