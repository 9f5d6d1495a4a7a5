//! Times the calls of memory: reads and writes of each width under each layout, and makes and drops, for blocks of several
//! sizes.
//!
//!     memory_bench CALLS
//!
//! prints one line for each kind of call: its name, the layout, the width in bytes (with `+1` where the word straddles two),
//! the block's size in bytes, how many calls were done, how many nanoseconds they took together, and for reads the sum of
//! what they gave. Without a number it prints how it is called. There is one make, with its drop, for ten accesses.
#![tactic(auto)]

mod accesses;
mod plan;
mod storage;

use accesses::time_accesses;
use std::rt::Runtime;
use std::{env, io};
use storage::time_storage;

fn main(rt: HostRuntime) -> io::Result<()> {
    match calls(&rt)? {
        Some(calls) => {
            time_accesses(&rt, rt.alloc(), calls)?;
            time_storage(&rt, rt.alloc(), calls / 10)
        }
        None => println!(rt; "memory_bench CALLS"),
    }
}

/// The number of calls that the first word asks for, if it does.
fn calls(rt: &impl Runtime) -> io::Result<Option<u32>> {
    match env::args(rt)?.nth(1) {
        Some(word) => Ok(word.as_str().parse().ok()),
        None => Ok(None),
    }
}
