//! Writing a file.

ghost use Rattle.std.specs.Prelude.{◌≡◌, ◌≤◌};
ghost use Rattle.fsc_outside.specs.Calls.{counts_of};
ghost use Rattle.fsc_run.specs.Reading.{NamesFile};
ghost use Rattle.fsc_commands.specs.Writing.{Writes};

use fsc_base::{Name, NoMemory};
use fsc_ending::Ending;
use fsc_outside::{Files, Put};
use std::alloc::Global;

/// The ending where the file of that name could not be written.
fn faulty(alloc: Global, name: &Name) -> Ending
    ensures { NamesFile Ending.FileFault name.now result }
{
    match Name::from_slice(alloc, name.as_slice()) {
        Ok(name) => Ending::FileFault(name),
        Err(NoMemory) => Ending::NoMemory,
    }
}

/// Makes the bytes the whole file of that name. Exits with 0 where that was done.
pub(crate) fn write_file<F: Files>(
    alloc: Global,
    files: &mut F,
    name: &Name,
    bytes: &[u8],
) -> Ending
    ensures writes { Writes result name.now (λ written. written ≡ bytes.now) (counts_of F.Files files.old files.new) (F.contents files.new) }
    ensures faults_counted { F.fault_count files.old ≤ F.fault_count files.new }
    ensures absences_counted { F.absence_count files.old ≤ F.absence_count files.new }
{
    match files.write(name, bytes) {
        Put::Done => Ending::Exited(0),
        Put::Failed => faulty(alloc, name),
        Put::NoMemory => Ending::NoMemory,
    }
}
