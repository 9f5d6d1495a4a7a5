//! Runs the tool on the cases of the files that the words name, over objects in memory, and prints a line a case: `ok` and
//! its name, or what differs. Of the files behind the word `--refused` it prints why they are refused. `docs/CASES.md`
//! explains the form of a case.
#![tactic(auto)]

mod comparing;
mod endings;
mod given;
mod images;
mod running;
mod wanted;
mod worked;

use anyhow::{Result, anyhow, ensure};
use case_file::{Case, CaseNo, read_cases};
use comparing::difference;
use fsc_base::{Bytes, Name, NoMemory};
use fsc_outside::{DiskFiles, Files, Got};
use running::run;
use std::alloc::Global;
use std::env;
use worked::Worked;

/// The word behind which the files stand that have to be refused.
const REFUSED: &str = "--refused";

fn main(rt: HostRuntime) -> Result<()> {
    let alloc = rt.alloc();
    let mut files = DiskFiles::new(&rt, alloc);
    let mut wrong = 0_u32;
    let mut is_refused = false;
    for word in env::args(&rt)?.skip(1) {
        let name = word.as_str();
        if name == REFUSED {
            is_refused = true;
            continue;
        }
        let bytes = bytes_of(alloc, &mut files, name)?;
        let found = if is_refused {
            refuse_file(&rt, alloc, name, bytes.as_slice())?
        } else {
            run_file(&rt, alloc, name, bytes.as_slice())?
        };
        wrong = wrong.saturating_add(found);
    }
    ensure!(wrong == 0, "{wrong} cases differ");
    Ok(())
}

/// Runs the cases of a file, and prints a line for each. How many differ.
fn run_file(rt: &impl Print, alloc: Global, name: &str, bytes: &[u8]) -> Result<u32> {
    let mut differing = 0_u32;
    for case in read_cases(alloc, bytes).map_err(|no| refusal(name, no))? {
        let title = String::from_str(alloc, case.name.as_str())?;
        match answer(alloc, case).map_err(|no| refusal(name, no))? {
            None => println!(rt; "ok {title}")?,
            Some(difference) => {
                differing = differing.saturating_add(1);
                println!(rt; "NO {title}: {difference}")?;
            }
        }
    }
    Ok(differing)
}

/// Prints why a file is refused. 0, or 1 where it isn't.
fn refuse_file(rt: &impl Print, alloc: Global, name: &str, bytes: &[u8]) -> Result<u32> {
    match first_refusal(alloc, bytes) {
        Err(no) => {
            println!(rt; "refused {name}:{no}")?;
            Ok(0)
        }
        Ok(()) => {
            println!(rt; "NO {name}: it isn't refused")?;
            Ok(1)
        }
    }
}

/// The first refusal of a file or of one of its cases, if there is one.
fn first_refusal(alloc: Global, bytes: &[u8]) -> Result<(), CaseNo> {
    for case in read_cases(alloc, bytes)? {
        Worked::of(alloc, case)?;
    }
    Ok(())
}

/// The bytes of a file of cases.
fn bytes_of<F: Files>(alloc: Global, files: &mut F, name: &str) -> Result<Bytes> {
    let path = Name::from_slice(alloc, name.as_bytes()).map_err(|_| anyhow!("no memory"))?;
    match files.read(&path) {
        Got::Found(bytes) => Ok(bytes),
        Got::Absent => Err(anyhow!("{name}: no such file")),
        Got::Failed => Err(anyhow!("{name}: it can't be read")),
        Got::NoMemory => Err(anyhow!("no memory")),
    }
}

/// The error of a file of cases that was refused.
fn refusal(name: &str, no: CaseNo) -> anyhow::Error {
    anyhow!("{name}:{no}")
}

/// Runs a case. What differs from what it wants, if anything does.
fn answer(alloc: Global, case: Case) -> Result<Option<String>, CaseNo> {
    let worked = Worked::of(alloc, case)?;
    let compared = match run(alloc, &worked.given) {
        Ok(outcome) => difference(alloc, &worked, &outcome),
        Err(NoMemory) => Err(NoMemory),
    };
    compared.map_err(|_| CaseNo::NoMemory)
}
