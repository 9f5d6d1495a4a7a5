//! The run of the program of any files.

ghost use Rattle.std.specs.Prelude.{◌≡◌, ◌≢◌, ◌≤◌, ◌⊎◌, [], ◌∷◌, None, Some};
ghost use Rattle.fsc_base.specs.Image.{IsSound};
ghost use Rattle.fsc_outside.specs.Calls.{counts_of};
ghost use Rattle.fsc_outside.specs.Counts.{Rose};
ghost use Rattle.rv_run.specs.Machine.{start_of};
ghost use Rattle.fsc_run.specs.Running.{streams_of, RanNothing, RanFrom};
ghost use Rattle.fsc_commands.specs.Going.{RunsFiles};

use crate::refusal::ending_of_refusal;
use fsc_base::{Image, Name};
use fsc_core::build;
use fsc_ending::Ending;
use fsc_outside::{Files, Sink, Source};
use fsc_run::{Done, run_machine};
use rv_run::Machine;
use std::alloc::Global;

/// Leaves a sound image in `made` and runs it, at most `steps` instructions of it. Where memory for the machine is refused, none is
/// left there.
fn run_made<S: Source, O: Sink>(
    alloc: Global,
    image: Image,
    steps: u64,
    stats: bool,
    input: &mut S,
    out: &mut O,
    made: &mut Option<Image>,
) -> Done
    requires sound { IsSound image }
    requires none { made.old ≡ None }
    ensures ran { ((made.new ≡ None) × (result.ending ≡ Ending.NoMemory) × RanNothing result.marks ((input.new ≡ input.old) × (out.new ≡ out.old)) (streams_of S.Source O.Sink input.old out.old) (streams_of S.Source O.Sink input.new out.new))
        ⊎ ((made.new ≡ Some image) × RanFrom (start_of image) steps stats result.ending result.marks (streams_of S.Source O.Sink input.old out.old) (streams_of S.Source O.Sink input.new out.new)) }
    ensures read_failed { result.ending ≡ Ending.ReadFault → Rose (S.fault_count input.old) (S.fault_count input.new) }
    ensures write_failed { result.ending ≡ Ending.WriteFault → Rose (O.fault_count out.old) (O.fault_count out.new) }
    ensures unnoted { result.ending ≢ Ending.NoteFault }
    ensures read_counted { S.fault_count input.old ≤ S.fault_count input.new }
    ensures write_counted { O.fault_count out.old ≤ O.fault_count out.new }
{
    let Ok(mut machine) = Machine::new(alloc, &image) else {
        return Done::without_run(Ending::NoMemory);
    };
    *made = Some(image);
    run_machine(&mut machine, steps, stats, input, out)
}

/// Runs the program of the files of these names, at most `steps` instructions of it, and leaves its image in `made`, or answers why
/// there is none.
pub fn go_units<F: Files, S: Source, O: Sink>(
    alloc: Global,
    names: &[Name],
    steps: u64,
    stats: bool,
    files: &mut F,
    input: &mut S,
    out: &mut O,
    made: &mut Option<Image>,
) -> Done
    requires { made.old ≡ None }
    ensures ran { RunsFiles made.new result.ending result.marks names.now steps stats (counts_of F.Files files.old files.new)
        ((input.new ≡ input.old) × (out.new ≡ out.old)) (streams_of S.Source O.Sink input.old out.old) (streams_of S.Source O.Sink input.new out.new) }
    ensures read_failed { result.ending ≡ Ending.ReadFault → Rose (S.fault_count input.old) (S.fault_count input.new) }
    ensures write_failed { result.ending ≡ Ending.WriteFault → Rose (O.fault_count out.old) (O.fault_count out.new) }
    ensures unnoted { result.ending ≢ Ending.NoteFault }
    ensures kept { F.contents files.new ≡ F.contents files.old }
    ensures faults_counted { F.fault_count files.old ≤ F.fault_count files.new }
    ensures absences_counted { F.absence_count files.old ≤ F.absence_count files.new }
    ensures read_counted { S.fault_count input.old ≤ S.fault_count input.new }
    ensures write_counted { O.fault_count out.old ≤ O.fault_count out.new }
{
    match build(alloc, files, names) {
        Ok(image) => run_made(alloc, image, steps, stats, input, out, made),
        Err(refusal) => Done::without_run(ending_of_refusal(refusal)),
    }
}

/// Runs the program of one file, as `go_units`.
pub(crate) fn go_file<F: Files, S: Source, O: Sink>(
    alloc: Global,
    file: &Name,
    steps: u64,
    stats: bool,
    files: &mut F,
    input: &mut S,
    out: &mut O,
    made: &mut Option<Image>,
) -> Done
    requires { made.old ≡ None }
    ensures ran { RunsFiles made.new result.ending result.marks (file.now ∷ []) steps stats (counts_of F.Files files.old files.new)
        ((input.new ≡ input.old) × (out.new ≡ out.old)) (streams_of S.Source O.Sink input.old out.old) (streams_of S.Source O.Sink input.new out.new) }
    ensures read_failed { result.ending ≡ Ending.ReadFault → Rose (S.fault_count input.old) (S.fault_count input.new) }
    ensures write_failed { result.ending ≡ Ending.WriteFault → Rose (O.fault_count out.old) (O.fault_count out.new) }
    ensures unnoted { result.ending ≢ Ending.NoteFault }
    ensures kept { F.contents files.new ≡ F.contents files.old }
    ensures faults_counted { F.fault_count files.old ≤ F.fault_count files.new }
    ensures absences_counted { F.absence_count files.old ≤ F.absence_count files.new }
    ensures read_counted { S.fault_count input.old ≤ S.fault_count input.new }
    ensures write_counted { O.fault_count out.old ≤ O.fault_count out.new }
{
    let Ok(name) = Name::from_slice(alloc, file.as_slice()) else {
        return Done::without_run(Ending::NoMemory);
    };
    go_units(alloc, &[name], steps, stats, files, input, out, made)
}
