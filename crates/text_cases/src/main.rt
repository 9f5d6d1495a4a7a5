//! Asks the crates of the text layer what the cases of the files that the words name ask, and prints a line a case: `ok`
//! and its name, or what differs. `docs/CASES.md` explains the form of a case.
#![tactic(auto)]

mod bench;
mod hidden;
mod images;
mod lexing;
mod library;
mod macros;
mod pieces;
mod preprocessing;
mod refusals;
mod requests;

use anyhow::{Result, anyhow, ensure};
use bench::difference;
use case_file::{CaseNo, read_cases};
use fsc_base::{Bytes, Name};
use fsc_outside::{DiskFiles, Files, Got};
use std::alloc::Global;
use std::env;

fn main(rt: HostRuntime) -> Result<()> {
    let alloc = rt.alloc();
    let mut files = DiskFiles::new(&rt, alloc);
    let mut differing = 0_u32;
    for name in env::args(&rt)?.skip(1) {
        let refused = |no: CaseNo| anyhow!("{name}:{no}");
        let bytes = bytes_of(alloc, &mut files, name.as_str())?;
        for case in read_cases(alloc, bytes.as_slice()).map_err(refused)? {
            let title = String::from_str(alloc, case.name.as_str())?;
            match difference(alloc, case).map_err(refused)? {
                None => println!(rt; "ok {title}")?,
                Some(difference) => {
                    differing = differing.saturating_add(1);
                    println!(rt; "NO {title}: {difference}")?;
                }
            }
        }
    }
    ensure!(differing == 0, "{differing} cases differ");
    Ok(())
}

/// The bytes of a file of cases.
fn bytes_of<F: Files>(alloc: Global, files: &mut F, name: &str) -> Result<Bytes> {
    let path = Name::from_slice(alloc, name.as_bytes()).map_err(|_| anyhow!("no memory"))?;
    match files.read(&path) {
        Got::Found(bytes) => Ok(bytes),
        Got::Absent => Err(anyhow!("{name}: no such file")),
        Got::Failed => Err(anyhow!("{name}: it can't be read")),
        Got::NoMemory => Err(anyhow!("no memory")),
    }
}
