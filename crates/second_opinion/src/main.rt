//! Asks for a second opinion on small programs: each program of the files that the words name is run by the reference
//! interpreter, by the machine of fat code and as an image, and each run is compared with what the file wants. It prints a line a
//! program: `ok` and its name, or what differs. `docs/CASES.md` explains the form of a file.
#![tactic(auto)]

mod comparing;
mod fat_memory;
mod fat_run;
mod given;
mod image_memory;
mod image_run;
mod live;
mod meaning;
mod outcome;
mod program;
mod runs;
mod wanted;

use anyhow::{Result, anyhow, ensure};
use case_file::{Case, CaseNo, read_cases};
use fsc_base::{Bytes, Name};
use fsc_outside::{DiskFiles, Files, Got};
use program::Asked;
use runs::opinion;
use std::alloc::Global;
use std::env;

fn main(rt: HostRuntime) -> Result<()> {
    let alloc = rt.alloc();
    let mut files = DiskFiles::new(&rt, alloc);
    let mut wrong = 0_u32;
    for word in env::args(&rt)?.skip(1) {
        let name = word.as_str();
        let bytes = bytes_of(alloc, &mut files, name)?;
        let found = run_file(&rt, alloc, name, bytes.as_slice())?;
        wrong = wrong.saturating_add(found);
    }
    ensure!(wrong == 0, "{wrong} programs differ");
    Ok(())
}

/// Runs the programs of a file, and prints a line for each. How many differ.
fn run_file(rt: &impl Print, alloc: Global, name: &str, bytes: &[u8]) -> Result<u32> {
    let mut differing = 0_u32;
    for case in read_cases(alloc, bytes).map_err(|no| refusal(name, no))? {
        let title = String::from_str(alloc, case.name.as_str())?;
        let said = answer(alloc, case).map_err(|no| refusal(name, no))?;
        if said.is_empty() {
            println!(rt; "ok {title}")?;
        } else {
            differing = differing.saturating_add(1);
            println!(rt; "NO {title}: {said}")?;
        }
    }
    Ok(differing)
}

/// The bytes of a file of programs.
fn bytes_of<F: Files>(alloc: Global, files: &mut F, name: &str) -> Result<Bytes> {
    let Ok(path) = Name::from_slice(alloc, name.as_bytes()) else {
        return Err(anyhow!("no memory"));
    };
    match files.read(&path) {
        Got::Found(bytes) => Ok(bytes),
        Got::Absent => Err(anyhow!("{name}: no such file")),
        Got::Failed => Err(anyhow!("{name}: it can't be read")),
        Got::NoMemory => Err(anyhow!("no memory")),
    }
}

/// The error of a file that was refused.
fn refusal(name: &str, no: CaseNo) -> anyhow::Error {
    anyhow!("{name}:{no}")
}

/// What differs of the runs of a program, in words; nothing where none does.
fn answer(alloc: Global, case: Case) -> Result<String, CaseNo> {
    let asked = Asked::of(alloc, case)?;
    match opinion(alloc, &asked) {
        Ok(said) => Ok(said),
        Err(_) => Err(CaseNo::NoMemory),
    }
}
