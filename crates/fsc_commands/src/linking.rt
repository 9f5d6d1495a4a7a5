//! The command `link`.

ghost use Rattle.std.specs.Prelude.{◌≡◌, ◌≤◌, IfErr};
ghost use Rattle.fsc_outside.specs.Calls.{counts_of};
ghost use Rattle.fsc_commands.specs.Writing.{IsBadUnit, RefusesLink, LinksFiles};

use crate::building::write_image;
use crate::refusal::ending_of_refusal;
use fat_code::FatUnit;
use fsc_base::{Bytes, Name, NoMemory};
use fsc_core::image_of;
use fsc_ending::Ending;
use fsc_outside::Files;
use fsc_run::read_file;
use std::alloc::Global;
use unit_file::{ReadUnitNo, read_unit};

/// The most files that a call names.
const MOST_FILES: u32 = 1000;

/// The unit that the bytes of a file are.
fn decoded(alloc: Global, name: &Name, bytes: &Bytes) -> Result<FatUnit, Ending>
    ensures refused { IfErr result (λ ending. IsBadUnit ending name.now bytes.now) }
{
    match read_unit(alloc, bytes.as_slice()) {
        Ok(unit) => Ok(unit),
        Err(ReadUnitNo::Bad { fault, offset }) => match Name::from_slice(alloc, name.as_slice()) {
            Ok(name) => Err(Ending::BadUnit {
                name,
                fault,
                offset,
            }),
            Err(NoMemory) => Err(Ending::NoMemory),
        },
        Err(ReadUnitNo::NoMemory) => Err(Ending::NoMemory),
    }
}

/// The unit in one of the files, or None where there is none of that number.
fn unit_at<F: Files>(
    alloc: Global,
    files: &mut F,
    names: &[Name],
    at: u32,
) -> Result<Option<FatUnit>, Ending>
    ensures refused { IfErr result (λ ending. RefusesLink ending names.now (counts_of F.Files files.old files.new)) }
    ensures kept { F.contents files.new ≡ F.contents files.old }
    ensures faults_counted { F.fault_count files.old ≤ F.fault_count files.new }
    ensures absences_counted { F.absence_count files.old ≤ F.absence_count files.new }
{
    let Some(name) = names.get(at as usize) else {
        return Ok(None);
    };
    match read_file(alloc, files, name) {
        Ok(bytes) => match decoded(alloc, name, &bytes) {
            Ok(unit) => Ok(Some(unit)),
            Err(ending) => Err(ending),
        },
        Err(ending) => Err(ending),
    }
}

/// The units in the files, in order.
fn units<F: Files>(alloc: Global, files: &mut F, names: &[Name]) -> Result<Vec<FatUnit>, Ending>
    ensures refused { IfErr result (λ ending. RefusesLink ending names.now (counts_of F.Files files.old files.new)) }
    ensures kept { F.contents files.new ≡ F.contents files.old }
    ensures faults_counted { F.fault_count files.old ≤ F.fault_count files.new }
    ensures absences_counted { F.absence_count files.old ≤ F.absence_count files.new }
{
    let mut units = Vec::new(alloc);
    'files: for at in 0..MOST_FILES {
        match unit_at(alloc, files, names, at) {
            Ok(Some(unit)) => {
                if units.push(unit).is_err() {
                    return Err(Ending::NoMemory);
                }
            }
            Ok(None) => return Ok(units),
            Err(ending) => return Err(ending),
        }
    }
    Ok(units)
}

/// Writes the image of the program of the units in the files of these names, or answers why there is none.
pub fn link_files<F: Files>(alloc: Global, image: &Name, names: &[Name], files: &mut F) -> Ending
    ensures links { LinksFiles result image.now names.now (counts_of F.Files files.old files.new) (F.contents files.new) }
    ensures faults_counted { F.fault_count files.old ≤ F.fault_count files.new }
    ensures absences_counted { F.absence_count files.old ≤ F.absence_count files.new }
{
    match units(alloc, files, names) {
        Ok(units) => match image_of(alloc, &units) {
            Ok(made) => write_image(alloc, files, image, &made),
            Err(no) => ending_of_refusal(no),
        },
        Err(ending) => ending,
    }
}
