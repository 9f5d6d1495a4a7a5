//! The command `build`.

ghost use Rattle.std.specs.Prelude.{◌≤◌};
ghost use Rattle.fsc_base.specs.Image.{IsSound};
ghost use Rattle.fsc_outside.specs.Calls.{counts_of};
ghost use Rattle.fsc_commands.specs.Writing.{Writes, BuildsFiles, IsImageFile};

use crate::refusal::ending_of_refusal;
use crate::writing::write_file;
use elf_image::write_elf;
use fsc_base::{Image, Name, NoMemory};
use fsc_core::build;
use fsc_ending::Ending;
use fsc_outside::Files;
use std::alloc::Global;

/// Writes the file of a sound image.
pub(crate) fn write_image<F: Files>(
    alloc: Global,
    files: &mut F,
    name: &Name,
    image: &Image,
) -> Ending
    requires { IsSound image.now }
    ensures writes { Writes result name.now IsImageFile (counts_of F.Files files.old files.new) (F.contents files.new) }
    ensures faults_counted { F.fault_count files.old ≤ F.fault_count files.new }
    ensures absences_counted { F.absence_count files.old ≤ F.absence_count files.new }
{
    match write_elf(alloc, image) {
        Ok(bytes) => write_file(alloc, files, name, bytes.as_slice()),
        Err(NoMemory) => Ending::NoMemory,
    }
}

/// Writes the image of the program of the files of these names, or answers why there is none.
pub fn build_file<F: Files>(alloc: Global, image: &Name, names: &[Name], files: &mut F) -> Ending
    ensures builds { BuildsFiles result image.now names.now (counts_of F.Files files.old files.new) (F.contents files.new) }
    ensures faults_counted { F.fault_count files.old ≤ F.fault_count files.new }
    ensures absences_counted { F.absence_count files.old ≤ F.absence_count files.new }
{
    match build(alloc, files, names) {
        Ok(made) => write_image(alloc, files, image, &made),
        Err(no) => ending_of_refusal(no),
    }
}
