//! Where included files are found.

ghost use Rattle.std.specs.Prelude.{◌≡◌, ◌≤◌, MatchOption, IfOk, IfErr};
ghost use Rattle.fsc_outside.specs.Counts.{Rose};
ghost use Rattle.fsc_outside.specs.Calls.{counts_of};
ghost use Rattle.cpp_text.specs.Outside.{StopsSearch};

use crate::header_name::{Form, HeaderName};
use crate::refusal::Stop;
use fsc_base::{Bytes, Name, NoMemory};
use fsc_outside::{Files, Got};
use libc_wrap::header;
use std::alloc::Global;

/// A file that was found, and the name by which it was.
#[derive(Debug, Drop)]
pub enum Found {
    /// A file with these bytes.
    File(Name, Bytes),
    /// A built-in header with that text.
    BuiltIn(Name, &'static [u8]),
}

/// The bytes of a file, or None where there is none.
fn read<F: Files>(alloc: Global, files: &mut F, name: &Name) -> Result<Option<Bytes>, Stop>
    ensures absent { IfOk result (λ found. MatchOption found (Rose (F.absence_count files.old) (F.absence_count files.new)) (λ _. Unit {0})) }
    ensures stopped { IfErr result (λ stop. StopsSearch stop (counts_of F.Files files.old files.new)) }
    ensures kept { F.contents files.new ≡ F.contents files.old }
    ensures faults_counted { F.fault_count files.old ≤ F.fault_count files.new }
    ensures absences_counted { F.absence_count files.old ≤ F.absence_count files.new }
{
    match files.read(name) {
        Got::Found(bytes) => Ok(Some(bytes)),
        Got::Absent => Ok(None),
        Got::Failed => Err(Stop::FileFault(Name::from_slice(alloc, name.as_slice())?)),
        Got::NoMemory => Err(Stop::NoMemory),
    }
}

/// The name of a file that stands beside another: that one's name up to and with its last `/`, and the name behind it.
/// None where there is no `/`.
fn beside(alloc: Global, including: &Name, name: &Name) -> Result<Option<Name>, NoMemory> {
    let including = including.as_slice();
    let Some(slash) = including.iter().rposition(|byte| *byte == b'/') else {
        return Ok(None);
    };
    let mut joined = Vec::from_slice(alloc, &including[..=slash])?;
    joined.extend_from_slice(name.as_slice())?;
    Ok(Some(Name::from_vec(joined)))
}

/// The file of that name.
fn file<F: Files>(alloc: Global, files: &mut F, name: &Name) -> Result<Option<Found>, Stop>
    ensures absent { IfOk result (λ found. MatchOption found (Rose (F.absence_count files.old) (F.absence_count files.new)) (λ _. Unit {0})) }
    ensures stopped { IfErr result (λ stop. StopsSearch stop (counts_of F.Files files.old files.new)) }
    ensures kept { F.contents files.new ≡ F.contents files.old }
    ensures faults_counted { F.fault_count files.old ≤ F.fault_count files.new }
    ensures absences_counted { F.absence_count files.old ≤ F.absence_count files.new }
{
    match read(alloc, files, name)? {
        Some(bytes) => Ok(Some(Found::File(Name::from_slice(alloc, name.as_slice())?, bytes))),
        None => Ok(None),
    }
}

/// The file of that name beside another.
fn file_beside<F: Files>(
    alloc: Global,
    files: &mut F,
    including: &Name,
    name: &Name,
) -> Result<Option<Found>, Stop>
    ensures stopped { IfErr result (λ stop. StopsSearch stop (counts_of F.Files files.old files.new)) }
    ensures kept { F.contents files.new ≡ F.contents files.old }
    ensures faults_counted { F.fault_count files.old ≤ F.fault_count files.new }
    ensures absences_counted { F.absence_count files.old ≤ F.absence_count files.new }
{
    match beside(alloc, including, name)? {
        Some(name) => file(alloc, files, &name),
        None => Ok(None),
    }
}

/// The built-in header of that name.
fn built_in(alloc: Global, name: &Name) -> Result<Option<Found>, NoMemory> {
    match header(name) {
        Some(text) => Ok(Some(Found::BuiltIn(Name::from_slice(alloc, name.as_slice())?, text))),
        None => Ok(None),
    }
}

/// The file that `#include` names in the file of that name, or None where none is there. `"x"` is looked for beside the
/// including file, then as it is written, then among the built-in headers; `<x>` among these, then as it is written.
pub fn search<F: Files>(
    alloc: Global,
    files: &mut F,
    including: &Name,
    header: &HeaderName,
) -> Result<Option<Found>, Stop>
    ensures absent { IfOk result (λ found. MatchOption found (Rose (F.absence_count files.old) (F.absence_count files.new)) (λ _. Unit {0})) }
    ensures stopped { IfErr result (λ stop. StopsSearch stop (counts_of F.Files files.old files.new)) }
    ensures kept { F.contents files.new ≡ F.contents files.old }
    ensures faults_counted { F.fault_count files.old ≤ F.fault_count files.new }
    ensures absences_counted { F.absence_count files.old ≤ F.absence_count files.new }
{
    match header.form {
        Form::Quoted => {
            if let Some(found) = file_beside(alloc, files, including, &header.name)? {
                return Ok(Some(found));
            }
            if let Some(found) = file(alloc, files, &header.name)? {
                return Ok(Some(found));
            }
            Ok(built_in(alloc, &header.name)?)
        }
        Form::Angled => match built_in(alloc, &header.name)? {
            Some(found) => Ok(Some(found)),
            None => file(alloc, files, &header.name),
        },
    }
}
