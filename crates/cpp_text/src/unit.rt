//! From a file to the tokens of its unit.

ghost use Rattle.std.specs.Prelude.{◌≡◌, ◌≤◌, IfErr};
ghost use Rattle.fsc_outside.specs.Calls.{counts_of};
ghost use Rattle.cpp_text.specs.Outside.{RefusesUnit, IsOfText, NamesFault, NamesBroken, Answers};

use crate::opening::file_tokens;
use crate::reading::Reading;
use crate::refusal::{PpNo, Stop};
use fsc_base::{Broken, Bytes, Name, NoMemory, Refused};
use fsc_outside::{Files, Got};
use pp_token::PpUnit;
use std::alloc::Global;

/// The refusal of a unit that breaks a rule in the file of that name.
fn broken_in(broken: Broken, name: Result<Name, NoMemory>) -> PpNo
    ensures { NamesBroken result broken }
{
    match name {
        Ok(name) => PpNo::Broken(broken, name),
        Err(NoMemory) => PpNo::NoMemory,
    }
}

/// The refusal of a unit whose own file, of that name, could not be read.
fn faulty(alloc: Global, name: &Name) -> PpNo
    ensures { NamesFault result name.now }
{
    match Name::from_slice(alloc, name.as_slice()) {
        Ok(name) => PpNo::FileFault(name),
        Err(NoMemory) => PpNo::NoMemory,
    }
}

/// The bytes of the unit's own file.
#[tactic(auto, using(crate::proofs::Earlier::refuses_fault))]
fn own_file<F: Files>(alloc: Global, files: &mut F, name: &Name) -> Result<Bytes, PpNo>
    ensures refused { IfErr result (λ refusal. RefusesUnit refusal name.now (counts_of F.Files files.old files.new)) }
    ensures kept { F.contents files.new ≡ F.contents files.old }
    ensures faults_counted { F.fault_count files.old ≤ F.fault_count files.new }
    ensures absences_counted { F.absence_count files.old ≤ F.absence_count files.new }
{
    match files.read(name) {
        Got::Found(bytes) => Ok(bytes),
        Got::Absent => Err(PpNo::Missing),
        Got::Failed => Err(faulty(alloc, name)),
        Got::NoMemory => Err(PpNo::NoMemory),
    }
}

/// The unit with these bytes in its own file, before its first line.
#[tactic(auto, using(crate::proofs::Earlier::text_broken))]
fn begun(alloc: Global, unit: u32, name: &Name, bytes: &[u8]) -> Result<Reading, PpNo>
    ensures { IfErr result IsOfText }
{
    let tokens = match file_tokens(alloc, unit, 0, bytes) {
        Ok(tokens) => tokens,
        Err(Refused::Broken(broken)) => {
            return Err(broken_in(broken, Name::from_slice(alloc, name.as_slice())));
        }
        Err(Refused::NoMemory) => return Err(PpNo::NoMemory),
    };
    match Reading::new(alloc, unit, name, tokens) {
        Ok(reading) => Ok(reading),
        Err(NoMemory) => Err(PpNo::NoMemory),
    }
}

/// What the unit's reading answers to a stop.
fn stopped(reading: &Reading, stop: Stop) -> PpNo
    ensures { Answers stop result }
{
    match stop {
        Stop::Broken(broken) => broken_in(broken, reading.file_name(broken.place.file)),
        Stop::FileFault(name) => PpNo::FileFault(name),
        Stop::NoMemory => PpNo::NoMemory,
    }
}

/// The unit of that number whose own file has that name, after phases 1 to 4 (C90 5.1.1.2): its tokens, and its files in
/// order of first opening.
///
/// Refused as `Broken` by one of K31 to K45, L02, L04, L06, L10, L14 and L15, with the name of the file in which it
/// is broken; as `Missing` where the unit's own file is absent; as `FileFault` where a file could not be read; and as
/// `NoMemory`.
#[tactic(auto, using(crate::proofs::Earlier::refuses_text))]
pub fn preprocess<F: Files>(
    alloc: Global,
    files: &mut F,
    unit: u32,
    name: &Name,
) -> Result<PpUnit, PpNo>
    ensures refused { IfErr result (λ refusal. RefusesUnit refusal name.now (counts_of F.Files files.old files.new)) }
    ensures kept { F.contents files.new ≡ F.contents files.old }
    ensures faults_counted { F.fault_count files.old ≤ F.fault_count files.new }
    ensures absences_counted { F.absence_count files.old ≤ F.absence_count files.new }
{
    let bytes = own_file(alloc, files, name)?;
    let mut reading = begun(alloc, unit, name, bytes.as_slice())?;
    match reading.run(files) {
        Ok(()) => match reading.finish() {
            Ok(unit) => Ok(unit),
            Err(NoMemory) => Err(PpNo::NoMemory),
        },
        Err(stop) => Err(stopped(&reading, stop)),
    }
}
