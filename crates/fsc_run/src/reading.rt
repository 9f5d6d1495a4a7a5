//! Reading a file that the words name.

ghost use Rattle.std.specs.Prelude.{◌≡◌, ◌≤◌, IfOk, IfErr, Some};
ghost use Rattle.fsc_outside.specs.Calls.{counts_of};
ghost use Rattle.fsc_outside.specs.FileMap.{Holds};
ghost use Rattle.fsc_run.specs.Reading.{NamesFile, RefusesRead};

use fsc_base::{Bytes, Name, NoMemory};
use fsc_ending::Ending;
use fsc_outside::{Files, Got};
use std::alloc::Global;

/// The ending where there is no file of that name.
pub fn missing(alloc: Global, name: &Name) -> Ending
    ensures { NamesFile Ending.MissingFile name.now result }
{
    match Name::from_slice(alloc, name.as_slice()) {
        Ok(name) => Ending::MissingFile(name),
        Err(NoMemory) => Ending::NoMemory,
    }
}

/// The ending where the file of that name could not be read.
fn faulty(alloc: Global, name: &Name) -> Ending
    ensures { NamesFile Ending.FileFault name.now result }
{
    match Name::from_slice(alloc, name.as_slice()) {
        Ok(name) => Ending::FileFault(name),
        Err(NoMemory) => Ending::NoMemory,
    }
}

/// The bytes of a file, or why there are none.
#[tactic(auto, using(crate::proofs::Files::absent_file, crate::proofs::Files::faulty_file))]
pub fn read_file<F: Files>(alloc: Global, files: &mut F, file: &Name) -> Result<Bytes, Ending>
    ensures found { IfOk result (λ bytes. Holds (F.contents files.old) file.now (Some bytes)) }
    ensures refused { IfErr result (λ ending. RefusesRead ending file.now (counts_of F.Files files.old files.new)) }
    ensures kept { F.contents files.new ≡ F.contents files.old }
    ensures faults_counted { F.fault_count files.old ≤ F.fault_count files.new }
    ensures absences_counted { F.absence_count files.old ≤ F.absence_count files.new }
{
    match files.read(file) {
        Got::Found(bytes) => Ok(bytes),
        Got::Absent => Err(missing(alloc, file)),
        Got::Failed => Err(faulty(alloc, file)),
        Got::NoMemory => Err(Ending::NoMemory),
    }
}
