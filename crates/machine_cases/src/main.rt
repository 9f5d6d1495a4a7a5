//! Shows what the parts of the machine do, by tables of cases: instructions and their words, arithmetic, images and ELF32
//! files, memory, runs, streams and files.
//!
//!     machine_cases TABLE.. [--refused TABLE..]
//!
//! runs each table, prints a line for each case whose answers are right and one for each answer that is not, and ends with
//! status 1 unless all are. The tables behind `--refused` have to be malformed. `docs/PARTS.md` explains the steps.
#![tactic(auto)]

mod arithmetic;
mod assembly;
mod bench;
mod draft;
mod elf;
mod files;
mod memory;
mod names;
mod runs;
mod streams;
mod told;

use bench::MachineBench;
use case_table::run_tables;
use std::io;
use std::process::ExitCode;

fn main(rt: HostRuntime) -> io::Result<ExitCode> {
    run_tables::<MachineBench>(&rt, rt.alloc())
}
