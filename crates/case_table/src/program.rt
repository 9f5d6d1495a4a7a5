//! The program around tables: its words name files.

use crate::refusal::Stop;
use crate::run::{Bench, run_table};
use std::alloc::Global;
use std::process::ExitCode;
use std::rt::Runtime;
use std::{env, fs, io};

/// The word behind which the files stand that have to be refused.
const REFUSED: &str = "--refused";

/// Runs one table. Whether all its answers are right.
fn run_file<B: Bench>(rt: &impl Runtime, alloc: Global, file: &str) -> Result<bool, Stop> {
    let text = fs::read_to_string(rt, file)?;
    run_table::<B, _>(rt, alloc, file, &text)
}

/// Prints why a table was not run to its end.
fn report(rt: &impl Runtime, file: &str, stop: &Stop) -> io::Result<()> {
    match stop {
        Stop::Malformed { line, why } => println!(rt; "{file}:{line}: {why}"),
        Stop::NoMemory => println!(rt; "{file}: no memory"),
        Stop::Outside(error) => println!(rt; "{file}: {error}"),
    }
}

/// Runs the tables that the words of the process name, and reports each. The files behind the word `--refused` have to be
/// malformed. The status is 1 unless all came as it should.
pub fn run_tables<B: Bench>(rt: &impl Runtime, alloc: Global) -> io::Result<ExitCode> {
    let mut refused = false;
    let mut status = ExitCode::SUCCESS;
    for word in env::args(rt)?.skip(1) {
        let file = word.as_str();
        if file == REFUSED {
            refused = true;
            continue;
        }
        match run_file::<B>(rt, alloc, file) {
            Ok(agrees) if agrees && !refused => {}
            Err(stop) => {
                report(rt, file, &stop)?;
                if !refused {
                    status = ExitCode::FAILURE;
                }
            }
            Ok(_) => status = ExitCode::FAILURE,
        }
    }
    Ok(status)
}
