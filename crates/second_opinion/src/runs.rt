//! The three runs of a program.

use crate::comparing::Differences;
use crate::fat_run::by_fat_code;
use crate::image_run::by_image;
use crate::meaning::{by_meaning, fat_units};
use crate::program::Asked;
use fsc_base::NoMemory;
use fsc_core::{CoreNo, program_of, typed_in_memory};
use fsc_outside::MemFiles;
use std::alloc::Global;

/// What differs of the runs of a program from what is wanted, in words.
pub fn opinion(alloc: Global, asked: &Asked) -> Result<String, NoMemory> {
    let mut differences = Differences::new(alloc);
    if let Err(no) = run_all(alloc, asked, &mut differences) {
        differences.refused(&no, &asked.wanted)?;
    }
    Ok(differences.into_text())
}

/// Runs a program, and notes what differs.
fn run_all(alloc: Global, asked: &Asked, differences: &mut Differences) -> Result<(), CoreNo> {
    let given = &asked.given;
    let mut files = MemFiles::new(alloc, &given.files, &[])?;
    let typed = typed_in_memory(alloc, &mut files, &given.units)?;
    let units = fat_units(alloc, &typed)?;
    let program = program_of(alloc, &units)?;
    by_meaning(alloc, typed, &units, asked, differences)?;
    by_fat_code(alloc, &program, asked, differences)?;
    by_image(alloc, &units, asked, differences)
}
