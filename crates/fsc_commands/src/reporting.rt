//! The objects that are alive at the end of the program of files.

ghost use Rattle.std.specs.Prelude.{◌≡◌, ◌≢◌, ◌+◌, ◌^◌, ◌<◌, ◌≤◌, ◌⊎◌, None, Some};
ghost use Rattle.fsc_base.specs.Image.{IsSound};
ghost use Rattle.fsc_outside.specs.Calls.{counts_of};
ghost use Rattle.fsc_outside.specs.Counts.{Rose};
ghost use Rattle.fsc_run.specs.Running.{streams_of, RanNothing};
ghost use Rattle.fsc_commands.specs.Reporting.{second_address, is_own_end, CameTo, Tells, RanWithReport, ReportsFiles};

use crate::refusal::ending_of_refusal;
use block_report::{Lives, report};
use fsc_base::{Image, Name, NoMemory};
use fsc_core::build;
use fsc_ending::{Ending, ending_of};
use fsc_outside::{Files, Sink, Source};
use fsc_run::Done;
use rv_run::Machine;
use std::alloc::Global;

/// The address of an image's second segment, which begins with the word that tells how many blocks were made; 0 where there is
/// no such segment.
fn second_address(image: &Image) -> u32
    ensures { result ≡ second_address image.now }
{
    match image.segments.as_slice() {
        [_, second, ..] => second.address,
        _ => 0,
    }
}

/// Whether it was the program that ended its run: it exited or stopped itself.
fn is_own_end(ending: &Ending) -> bool
    ensures { result ≡ is_own_end ending.now }
{
    match ending {
        Ending::Exited(_) | Ending::Stopped { .. } | Ending::OutOfStorage(_) => true,
        _ => false,
    }
}

/// Tells the objects that are alive in the memory that a run left, where its program ended it.
#[tactic(auto, using(crate::proofs::Reports::tells_none, crate::proofs::Reports::tells_unheld))]
fn tell(
    alloc: Global,
    machine: &Machine,
    at: u32,
    said: Ending,
    lives: &mut Option<Lives>,
) -> Ending
    requires { lives.old ≡ None }
    ensures tells { Tells machine.now at said result lives.new }
    ensures same { (result ≡ said) ⊎ (result ≡ Ending.NoMemory) }
{
    if !is_own_end(&said) {
        return said;
    }
    match report(alloc, machine, at) {
        Ok(found) => {
            *lives = Some(found);
            said
        }
        Err(NoMemory) => Ending::NoMemory,
    }
}

/// Runs a machine, at most `steps` instructions, and answers as it stopped.
fn run_on<S: Source, O: Sink>(
    machine: &mut Machine,
    steps: u64,
    input: &mut S,
    out: &mut O,
) -> Ending
    requires { machine.old.count + steps < 2 ^ 64 }
    ensures came { CameTo machine.old machine.new steps result (streams_of S.Source O.Sink input.old out.old) (streams_of S.Source O.Sink input.new out.new) }
    ensures read_failed { result ≡ Ending.ReadFault → Rose (S.fault_count input.old) (S.fault_count input.new) }
    ensures write_failed { result ≡ Ending.WriteFault → Rose (O.fault_count out.old) (O.fault_count out.new) }
    ensures unnoted { result ≢ Ending.NoteFault }
    ensures read_counted { S.fault_count input.old ≤ S.fault_count input.new }
    ensures write_counted { O.fault_count out.old ≤ O.fault_count out.new }
{
    let stop = machine.run(steps, input, out);
    ending_of(steps, stop)
}

/// Leaves a sound image in `made` and runs it, at most `steps` instructions of it; then tells the objects that are alive. Where memory
/// for the machine is refused, no image is left.
fn report_made<S: Source, O: Sink>(
    alloc: Global,
    image: Image,
    steps: u64,
    input: &mut S,
    out: &mut O,
    made: &mut Option<Image>,
    lives: &mut Option<Lives>,
) -> Done
    requires sound { IsSound image }
    requires none { made.old ≡ None }
    requires untold { lives.old ≡ None }
    ensures ran { ((made.new ≡ None) × (lives.new ≡ None) × (result.ending ≡ Ending.NoMemory)
        × RanNothing result.marks ((input.new ≡ input.old) × (out.new ≡ out.old)) (streams_of S.Source O.Sink input.old out.old) (streams_of S.Source O.Sink input.new out.new))
        ⊎ ((made.new ≡ Some image) × RanWithReport image steps result.ending result.marks lives.new
        (streams_of S.Source O.Sink input.old out.old) (streams_of S.Source O.Sink input.new out.new)) }
    ensures read_failed { result.ending ≡ Ending.ReadFault → Rose (S.fault_count input.old) (S.fault_count input.new) }
    ensures write_failed { result.ending ≡ Ending.WriteFault → Rose (O.fault_count out.old) (O.fault_count out.new) }
    ensures unnoted { result.ending ≢ Ending.NoteFault }
    ensures read_counted { S.fault_count input.old ≤ S.fault_count input.new }
    ensures write_counted { O.fault_count out.old ≤ O.fault_count out.new }
{
    let Ok(mut machine) = Machine::new(alloc, &image) else {
        return Done::without_run(Ending::NoMemory);
    };
    let at = second_address(&image);
    *made = Some(image);
    let said = run_on(&mut machine, steps, input, out);
    Done {
        ending: tell(alloc, &machine, at, said, lives),
        marks: None,
    }
}

/// Runs the program of the files of these names, at most `steps` instructions of it, leaves its image in `made`, and in `lives` the
/// objects that are alive where the program ended its run; or answers why there is none.
pub fn report_files<F: Files, S: Source, O: Sink>(
    alloc: Global,
    names: &[Name],
    steps: u64,
    files: &mut F,
    input: &mut S,
    out: &mut O,
    made: &mut Option<Image>,
    lives: &mut Option<Lives>,
) -> Done
    requires none { made.old ≡ None }
    requires untold { lives.old ≡ None }
    ensures ran { ReportsFiles made.new result.ending result.marks lives.new names.now steps (counts_of F.Files files.old files.new)
        ((input.new ≡ input.old) × (out.new ≡ out.old)) (streams_of S.Source O.Sink input.old out.old) (streams_of S.Source O.Sink input.new out.new) }
    ensures read_failed { result.ending ≡ Ending.ReadFault → Rose (S.fault_count input.old) (S.fault_count input.new) }
    ensures write_failed { result.ending ≡ Ending.WriteFault → Rose (O.fault_count out.old) (O.fault_count out.new) }
    ensures unnoted { result.ending ≢ Ending.NoteFault }
    ensures kept { F.contents files.new ≡ F.contents files.old }
    ensures faults_counted { F.fault_count files.old ≤ F.fault_count files.new }
    ensures absences_counted { F.absence_count files.old ≤ F.absence_count files.new }
    ensures read_counted { S.fault_count input.old ≤ S.fault_count input.new }
    ensures write_counted { O.fault_count out.old ≤ O.fault_count out.new }
{
    match build(alloc, files, names) {
        Ok(image) => report_made(alloc, image, steps, input, out, made, lives),
        Err(refusal) => Done::without_run(ending_of_refusal(refusal)),
    }
}
