//! The command `compile`.

ghost use Rattle.std.specs.Prelude.{◌≤◌};
ghost use Rattle.fsc_outside.specs.Calls.{counts_of};
ghost use Rattle.fsc_commands.specs.Writing.{Writes, CompilesFile, IsUnitFile};

use crate::refusal::ending_of_refusal;
use crate::writing::write_file;
use fat_code::FatUnit;
use fsc_base::{Name, NoMemory};
use fsc_core::compile;
use fsc_ending::{Ending, Form};
use fsc_outside::Files;
use std::alloc::Global;
use unit_file::{MOST_FILE_BYTES, unit_len, write_unit};

/// Writes the file of a unit.
fn write_unit_file<F: Files>(alloc: Global, files: &mut F, name: &Name, unit: &FatUnit) -> Ending
    ensures writes { Writes result name.now IsUnitFile (counts_of F.Files files.old files.new) (F.contents files.new) }
    ensures faults_counted { F.fault_count files.old ≤ F.fault_count files.new }
    ensures absences_counted { F.absence_count files.old ≤ F.absence_count files.new }
{
    // (a unit's parts have no fault)
    let _ = unit.parts();
    match write_unit(alloc, unit) {
        Ok(bytes) => write_file(alloc, files, name, bytes.as_slice()),
        Err(NoMemory) => Ending::NoMemory,
    }
}

/// Writes the unit of the file of that name, or answers why there is none.
pub fn compile_file<F: Files>(alloc: Global, unit: &Name, file: &Name, files: &mut F) -> Ending
    ensures compiles { CompilesFile result unit.now file.now (counts_of F.Files files.old files.new) (F.contents files.new) }
    ensures faults_counted { F.fault_count files.old ≤ F.fault_count files.new }
    ensures absences_counted { F.absence_count files.old ≤ F.absence_count files.new }
{
    match compile(alloc, files, 0, file) {
        Ok(made) => {
            if unit_len(&made) > MOST_FILE_BYTES {
                return Ending::NotBuilt(Form::Text);
            }
            write_unit_file(alloc, files, unit, &made)
        }
        Err(no) => ending_of_refusal(no),
    }
}
