//! From files to units.

ghost use Rattle.std.specs.Prelude.{◌≡◌, ℕ, ◌≤◌, List, IfErr};
ghost use Rattle.fsc_outside.specs.Calls.{FileCounts, counts_of};
ghost use Rattle.fsc_core.specs.Refusing.{RefusesOne, RefusesSome, RefusesUnits};

use crate::refusal::CoreNo;
use c_tree::TypedUnit;
use elab_fat::{ElaborateNo, elaborate};
use fat_code::FatUnit;
use fsc_base::{Name, NoMemory};
use fsc_front::{FrontNo, typed_unit};
use fsc_outside::Files;
use std::alloc::Global;

/// The most files that a call names.
const MOST_FILES: u32 = 1000;

/// The typed unit in the file of that name, with that number. Refused as `Broken`, `Missing` and `FileFault` where the front end refuses
/// so, and as `NoMemory`.
pub fn checked_unit<F: Files>(
    alloc: Global,
    files: &mut F,
    unit: u32,
    name: &Name,
) -> Result<TypedUnit, CoreNo>
    ensures refused { IfErr result (λ no. RefusesOne no name.now (counts_of F.Files files.old files.new)) }
    ensures kept { F.contents files.new ≡ F.contents files.old }
    ensures faults_counted { F.fault_count files.old ≤ F.fault_count files.new }
    ensures absences_counted { F.absence_count files.old ≤ F.absence_count files.new }
{
    match typed_unit(alloc, files, unit, name) {
        Ok(typed) => Ok(typed),
        Err(FrontNo::Broken(broken, file)) => Err(CoreNo::Broken(broken, file)),
        Err(FrontNo::Missing) => match Name::from_slice(alloc, name.as_slice()) {
            Ok(name) => Err(CoreNo::Missing(name)),
            Err(NoMemory) => Err(CoreNo::NoMemory),
        },
        Err(FrontNo::FileFault(file)) => Err(CoreNo::FileFault(file)),
        Err(FrontNo::NoMemory) => Err(CoreNo::NoMemory),
    }
}

/// The fat unit of a typed one. Refused as `Misfit` and `NoMemory`.
pub fn fat_of(alloc: Global, typed: &TypedUnit) -> Result<FatUnit, CoreNo>
    ensures refused { IfErr result RefusesUnits }
    ensures one { (name : List ℕ) (counts : FileCounts) → IfErr result (λ no. RefusesOne no name counts) }
    ensures some { (names : List (List ℕ)) (counts : FileCounts) → IfErr result (λ no. RefusesSome no names counts) }
{
    match elaborate(alloc, typed) {
        Ok(unit) => Ok(unit),
        Err(ElaborateNo::Misfit) => Err(CoreNo::Misfit),
        Err(ElaborateNo::NoMemory) => Err(CoreNo::NoMemory),
    }
}

/// The fat unit of the file of that name, with that number. Refused as `checked_unit` and `fat_of`.
pub fn compile<F: Files>(
    alloc: Global,
    files: &mut F,
    unit: u32,
    name: &Name,
) -> Result<FatUnit, CoreNo>
    ensures refused { IfErr result (λ no. RefusesOne no name.now (counts_of F.Files files.old files.new)) }
    ensures kept { F.contents files.new ≡ F.contents files.old }
    ensures faults_counted { F.fault_count files.old ≤ F.fault_count files.new }
    ensures absences_counted { F.absence_count files.old ≤ F.absence_count files.new }
{
    match checked_unit(alloc, files, unit, name) {
        Ok(typed) => fat_of(alloc, &typed),
        Err(no) => Err(no),
    }
}

/// The typed unit of one of the files, or None where there is none of that number.
fn checked_at<F: Files>(
    alloc: Global,
    files: &mut F,
    names: &[Name],
    at: u32,
) -> Result<Option<TypedUnit>, CoreNo>
    ensures refused { IfErr result (λ no. RefusesSome no names.now (counts_of F.Files files.old files.new)) }
    ensures kept { F.contents files.new ≡ F.contents files.old }
    ensures faults_counted { F.fault_count files.old ≤ F.fault_count files.new }
    ensures absences_counted { F.absence_count files.old ≤ F.absence_count files.new }
{
    let Some(name) = names.get(at as usize) else {
        return Ok(None);
    };
    match checked_unit(alloc, files, at, name) {
        Ok(typed) => Ok(Some(typed)),
        Err(no) => Err(no),
    }
}

/// The typed units of the files, in order. Refused as `checked_unit`.
pub fn typed_units<F: Files>(
    alloc: Global,
    files: &mut F,
    names: &[Name],
) -> Result<Vec<TypedUnit>, CoreNo>
    ensures refused { IfErr result (λ no. RefusesSome no names.now (counts_of F.Files files.old files.new)) }
    ensures kept { F.contents files.new ≡ F.contents files.old }
    ensures faults_counted { F.fault_count files.old ≤ F.fault_count files.new }
    ensures absences_counted { F.absence_count files.old ≤ F.absence_count files.new }
{
    let mut units = Vec::new(alloc);
    'files: for at in 0..MOST_FILES {
        match checked_at(alloc, files, names, at) {
            Ok(Some(unit)) => units.push(unit)?,
            Ok(None) => return Ok(units),
            Err(no) => return Err(no),
        }
    }
    Ok(units)
}

/// The fat unit of one of the files, or None where there is none of that number.
fn compiled_at<F: Files>(
    alloc: Global,
    files: &mut F,
    names: &[Name],
    at: u32,
) -> Result<Option<FatUnit>, CoreNo>
    ensures refused { IfErr result (λ no. RefusesSome no names.now (counts_of F.Files files.old files.new)) }
    ensures kept { F.contents files.new ≡ F.contents files.old }
    ensures faults_counted { F.fault_count files.old ≤ F.fault_count files.new }
    ensures absences_counted { F.absence_count files.old ≤ F.absence_count files.new }
{
    match checked_at(alloc, files, names, at) {
        Ok(Some(typed)) => match fat_of(alloc, &typed) {
            Ok(unit) => Ok(Some(unit)),
            Err(no) => Err(no),
        },
        Ok(None) => Ok(None),
        Err(no) => Err(no),
    }
}

/// The fat units of the files, in order; each typed unit is given back before the next file is read. Refused as `compile`.
pub fn compile_all<F: Files>(
    alloc: Global,
    files: &mut F,
    names: &[Name],
) -> Result<Vec<FatUnit>, CoreNo>
    ensures refused { IfErr result (λ no. RefusesSome no names.now (counts_of F.Files files.old files.new)) }
    ensures kept { F.contents files.new ≡ F.contents files.old }
    ensures faults_counted { F.fault_count files.old ≤ F.fault_count files.new }
    ensures absences_counted { F.absence_count files.old ≤ F.absence_count files.new }
{
    let mut units = Vec::new(alloc);
    'files: for at in 0..MOST_FILES {
        match compiled_at(alloc, files, names, at) {
            Ok(Some(unit)) => units.push(unit)?,
            Ok(None) => return Ok(units),
            Err(no) => return Err(no),
        }
    }
    Ok(units)
}
