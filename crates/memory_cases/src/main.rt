//! Shows what memory does, by tables of cases: blocks of bytes and cells of a region, which answer the same calls, and
//! below them shapes, places, descriptors and headers.
//!
//!     memory_cases TABLE.. [--refused TABLE..]
//!
//! runs each table, prints a line for each case whose answers are right and one for each answer that is not, and ends with
//! status 1 unless all are. The tables behind `--refused` have to be malformed. `docs/PARTS.md` explains the steps.
#![tactic(auto)]

mod bench;
mod blocks;
mod call;
mod cells;
mod headers;
mod reading;
mod sequences;
mod shape_steps;
mod told;
mod twins;

use bench::MemoryBench;
use case_table::run_tables;
use std::io;
use std::process::ExitCode;

fn main(rt: HostRuntime) -> io::Result<ExitCode> {
    run_tables::<MemoryBench>(&rt, rt.alloc())
}
