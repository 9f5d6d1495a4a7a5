//! The meaning of the program of files.

ghost use Rattle.std.specs.Prelude.{◌≡◌, ◌≢◌, ◌≤◌, IfErr};
ghost use Rattle.fsc_outside.specs.Calls.{counts_of};
ghost use Rattle.fsc_outside.specs.Counts.{Rose};
ghost use Rattle.fsc_core.specs.Refusing.{RefusesFiles};
ghost use Rattle.fsc_run.specs.Running.{streams_of};
ghost use Rattle.fsc_commands.specs.Meaning.{IsMeant, MeansFiles};

use crate::joining::program_of;
use crate::meant::ending_of_meant;
use crate::refusal::ending_of_refusal;
use c_mean::{Program, run_mean};
use fsc_base::Name;
use fsc_core::{CoreNo, typed_units};
use fsc_ending::Ending;
use fsc_outside::{Files, Sink, Source};
use std::alloc::Global;

/// The program of the files of these names.
fn program<F: Files>(alloc: Global, files: &mut F, names: &[Name]) -> Result<Program, CoreNo>
    ensures refused { IfErr result (λ no. RefusesFiles no names.now (counts_of F.Files files.old files.new)) }
    ensures kept { F.contents files.new ≡ F.contents files.old }
    ensures faults_counted { F.fault_count files.old ≤ F.fault_count files.new }
    ensures absences_counted { F.absence_count files.old ≤ F.absence_count files.new }
{
    match typed_units(alloc, files, names) {
        Ok(typed) => program_of(alloc, typed),
        Err(no) => Err(no),
    }
}

/// Follows the meaning of a program up to a cost.
fn follow<S: Source, O: Sink>(
    alloc: Global,
    program: &Program,
    cost: u64,
    input: &mut S,
    out: &mut O,
) -> Ending
    ensures meant { IsMeant result cost }
    ensures read_failed { result ≡ Ending.ReadFault → Rose (S.fault_count input.old) (S.fault_count input.new) }
    ensures write_failed { result ≡ Ending.WriteFault → Rose (O.fault_count out.old) (O.fault_count out.new) }
    ensures unnoted { result ≢ Ending.NoteFault }
    ensures read_counted { S.fault_count input.old ≤ S.fault_count input.new }
    ensures write_counted { O.fault_count out.old ≤ O.fault_count out.new }
{
    let meant = run_mean(alloc, program, cost, input, out);
    ending_of_meant(meant, cost)
}

/// Follows the meaning of the program of the files of these names up to a cost, or answers why there is none.
pub fn mean<F: Files, S: Source, O: Sink>(
    alloc: Global,
    names: &[Name],
    cost: u64,
    files: &mut F,
    input: &mut S,
    out: &mut O,
) -> Ending
    ensures means { MeansFiles result names.now cost (counts_of F.Files files.old files.new) ((input.new ≡ input.old) × (out.new ≡ out.old))
        (streams_of S.Source O.Sink input.old out.old) (streams_of S.Source O.Sink input.new out.new) }
    ensures read_failed { result ≡ Ending.ReadFault → Rose (S.fault_count input.old) (S.fault_count input.new) }
    ensures write_failed { result ≡ Ending.WriteFault → Rose (O.fault_count out.old) (O.fault_count out.new) }
    ensures unnoted { result ≢ Ending.NoteFault }
    ensures kept { F.contents files.new ≡ F.contents files.old }
    ensures faults_counted { F.fault_count files.old ≤ F.fault_count files.new }
    ensures absences_counted { F.absence_count files.old ≤ F.absence_count files.new }
    ensures read_counted { S.fault_count input.old ≤ S.fault_count input.new }
    ensures write_counted { O.fault_count out.old ≤ O.fault_count out.new }
{
    match program(alloc, files, names) {
        Ok(program) => follow(alloc, &program, cost, input, out),
        Err(no) => ending_of_refusal(no),
    }
}
