//! The command `run`: reads an image and runs it.

ghost use Rattle.std.specs.Prelude.{◌≡◌, ◌≢◌, ℕ, ◌≤◌, List};
ghost use Rattle.fsc_base.specs.Image.{IsSound};
ghost use Rattle.fsc_outside.specs.Calls.{counts_of};
ghost use Rattle.fsc_outside.specs.Counts.{Rose};
ghost use Rattle.elf_image.specs.Reading.{image_at};
ghost use Rattle.fsc_run.specs.Running.{streams_of, RunsImage, RunsImageFile};
ghost use Rattle.std.specs.declared.result.Result.TheVariants.{Ok};

use crate::reading::read_file;
use crate::running::{Done, run_machine};
use elf_image::{ReadElfNo, read_elf};
use fsc_base::{Bytes, Image, Name};
use fsc_ending::Ending;
use fsc_outside::{Files, Sink, Source};
use rv_run::Machine;
use std::alloc::Global;

/// Runs a sound image, at most `steps` instructions of it. The image is dropped before its first instruction.
fn run_image<S: Source, O: Sink>(
    alloc: Global,
    image: Image,
    steps: u64,
    stats: bool,
    input: &mut S,
    out: &mut O,
) -> Done
    requires { IsSound image }
    ensures runs { RunsImage (Ok image) steps stats result.ending result.marks ((input.new ≡ input.old) × (out.new ≡ out.old))
        (streams_of S.Source O.Sink input.old out.old) (streams_of S.Source O.Sink input.new out.new) }
    ensures read_failed { result.ending ≡ Ending.ReadFault → Rose (S.fault_count input.old) (S.fault_count input.new) }
    ensures write_failed { result.ending ≡ Ending.WriteFault → Rose (O.fault_count out.old) (O.fault_count out.new) }
    ensures unnoted { result.ending ≢ Ending.NoteFault }
    ensures read_counted { S.fault_count input.old ≤ S.fault_count input.new }
    ensures write_counted { O.fault_count out.old ≤ O.fault_count out.new }
{
    let machine = Machine::new(alloc, &image);
    drop(image);
    match machine {
        Ok(mut machine) => run_machine(&mut machine, steps, stats, input, out),
        Err(_) => Done::without_run(Ending::NoMemory),
    }
}

/// Runs the image that bytes are, or answers their fault. The bytes are dropped before the first instruction.
fn run_bytes<S: Source, O: Sink>(
    alloc: Global,
    bytes: Bytes,
    steps: u64,
    stats: bool,
    input: &mut S,
    out: &mut O,
) -> Done
    ensures runs { RunsImage (image_at bytes) steps stats result.ending result.marks ((input.new ≡ input.old) × (out.new ≡ out.old))
        (streams_of S.Source O.Sink input.old out.old) (streams_of S.Source O.Sink input.new out.new) }
    ensures read_failed { result.ending ≡ Ending.ReadFault → Rose (S.fault_count input.old) (S.fault_count input.new) }
    ensures write_failed { result.ending ≡ Ending.WriteFault → Rose (O.fault_count out.old) (O.fault_count out.new) }
    ensures unnoted { result.ending ≢ Ending.NoteFault }
    ensures read_counted { S.fault_count input.old ≤ S.fault_count input.new }
    ensures write_counted { O.fault_count out.old ≤ O.fault_count out.new }
{
    let image = read_elf(alloc, bytes.as_slice());
    drop(bytes);
    match image {
        Ok(image) => run_image(alloc, image, steps, stats, input, out),
        Err(ReadElfNo::Bad { fault, offset }) => Done::without_run(Ending::BadImage {
            fault,
            offset,
        }),
        Err(ReadElfNo::NoMemory) => Done::without_run(Ending::NoMemory),
    }
}

/// Runs the image in a file, at most `steps` instructions of it, or answers why there is none.
pub fn run_file<F: Files, S: Source, O: Sink>(
    alloc: Global,
    file: &Name,
    steps: u64,
    stats: bool,
    files: &mut F,
    input: &mut S,
    out: &mut O,
) -> Done
    ensures ran { RunsImageFile result.ending result.marks file.now steps stats (counts_of F.Files files.old files.new)
        ((input.new ≡ input.old) × (out.new ≡ out.old)) (streams_of S.Source O.Sink input.old out.old) (streams_of S.Source O.Sink input.new out.new) }
    ensures read_failed { result.ending ≡ Ending.ReadFault → Rose (S.fault_count input.old) (S.fault_count input.new) }
    ensures write_failed { result.ending ≡ Ending.WriteFault → Rose (O.fault_count out.old) (O.fault_count out.new) }
    ensures unnoted { result.ending ≢ Ending.NoteFault }
    ensures kept { F.contents files.new ≡ F.contents files.old }
    ensures faults_counted { F.fault_count files.old ≤ F.fault_count files.new }
    ensures absences_counted { F.absence_count files.old ≤ F.absence_count files.new }
    ensures read_counted { S.fault_count input.old ≤ S.fault_count input.new }
    ensures write_counted { O.fault_count out.old ≤ O.fault_count out.new }
{
    match read_file(alloc, files, file) {
        Ok(bytes) => run_bytes(alloc, bytes, steps, stats, input, out),
        Err(ending) => Done::without_run(ending),
    }
}
