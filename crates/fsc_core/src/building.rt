//! From units to images.

ghost use Rattle.std.specs.Prelude.{◌≡◌, ◌≤◌, IfOk, IfErr};
ghost use Rattle.fsc_base.specs.Image.{IsSound};
ghost use Rattle.fsc_outside.specs.Calls.{counts_of};
ghost use Rattle.fsc_core.specs.Refusing.{RefusesFiles, RefusesUnits};

use crate::compiling::compile_all;
use crate::library::{compiled_library, wanted};
use crate::refusal::CoreNo;
use fat_code::{FatUnit, ProgramParts};
use fat_elide::{ElideNo, elide};
use fsc_base::{Image, Name};
use fsc_outside::Files;
use rv_codegen::{GenerateNo, generate};
use std::alloc::Global;
use unit_link::{LinkNo, link};

/// The program of units and of units of the library. Refused as `Link` where a rule of linking is broken, as `Misfit` and as `NoMemory`.
pub fn linked(alloc: Global, units: &[FatUnit], library: &[FatUnit]) -> Result<ProgramParts, CoreNo>
    ensures refused { IfErr result RefusesUnits }
{
    match link(alloc, units, library) {
        Ok(program) => Ok(program),
        Err(LinkNo::Refused(fault)) => Err(CoreNo::Link(fault)),
        Err(LinkNo::Misfit) => Err(CoreNo::Misfit),
        Err(LinkNo::NoMemory) => Err(CoreNo::NoMemory),
    }
}

/// The program of units, in link order, with the units of the library that they use. Refused as `Link` where a rule of linking is
/// broken, as `Broken` where a text of the library breaks a rule, as `Misfit` and as `NoMemory`.
pub fn program_of(alloc: Global, units: &[FatUnit]) -> Result<ProgramParts, CoreNo>
    ensures refused { IfErr result RefusesUnits }
{
    let numbers = wanted(alloc, units)?;
    let Ok(before) = u32::try_from(units.len()) else {
        return Err(CoreNo::Misfit);
    };
    let library = compiled_library(alloc, &numbers, before)?;
    linked(alloc, units, &library)
}

/// The program without the conversions that change nothing. Refused as `Misfit` and as `NoMemory`.
fn shortened(alloc: Global, program: ProgramParts) -> Result<ProgramParts, CoreNo>
    ensures refused { IfErr result RefusesUnits }
{
    match elide(alloc, program) {
        Ok(program) => Ok(program),
        Err(ElideNo::Misfit) => Err(CoreNo::Misfit),
        Err(ElideNo::NoMemory) => Err(CoreNo::NoMemory),
    }
}

/// The image of a program, which is sound. Refused as `Misfit` and as `NoMemory`.
fn generated(alloc: Global, program: &ProgramParts) -> Result<Image, CoreNo>
    ensures refused { IfErr result RefusesUnits }
    ensures sound { IfOk result IsSound }
{
    match generate(alloc, program) {
        Ok(image) => Ok(image),
        Err(GenerateNo::Misfit) => Err(CoreNo::Misfit),
        Err(GenerateNo::NoMemory) => Err(CoreNo::NoMemory),
    }
}

/// The image of the program of units, which is sound. Refused as `program_of`.
pub fn image_of(alloc: Global, units: &[FatUnit]) -> Result<Image, CoreNo>
    ensures refused { IfErr result RefusesUnits }
    ensures sound { IfOk result IsSound }
{
    let program = program_of(alloc, units)?;
    let program = shortened(alloc, program)?;
    generated(alloc, &program)
}

/// The image of the program in files, each read whole before the next: their units in order, and the units of the library that
/// they use. Refused as `compile_all`, and then as `image_of`.
pub fn build<F: Files>(alloc: Global, files: &mut F, names: &[Name]) -> Result<Image, CoreNo>
    ensures sound { IfOk result IsSound }
    ensures refused { IfErr result (λ no. RefusesFiles no names.now (counts_of F.Files files.old files.new)) }
    ensures kept { F.contents files.new ≡ F.contents files.old }
    ensures faults_counted { F.fault_count files.old ≤ F.fault_count files.new }
    ensures absences_counted { F.absence_count files.old ≤ F.absence_count files.new }
{
    match compile_all(alloc, files, names) {
        Ok(units) => image_of(alloc, &units),
        Err(no) => Err(no),
    }
}
