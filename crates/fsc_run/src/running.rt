//! The run of a machine.

ghost use Rattle.std.specs.Prelude.{◌≡◌, ◌≢◌, ℕ, ◌+◌, ◌^◌, ◌<◌, ◌≤◌, List, None};
ghost use Rattle.fsc_outside.specs.Counts.{Rose};
ghost use Rattle.rv_run.specs.ImageRun.{image_run};
ghost use Rattle.fsc_ending.specs.Ending.{told_marks};
ghost use Rattle.fsc_run.specs.Running.{streams_of, RanFrom};

use fsc_ending::{Ending, ending_of};
use fsc_outside::{Sink, Source};
use rv_run::{Machine, Stop};

/// What a call of the tool did before its lines of notes: how it ended, and the marks of its run, if they are told.
#[derive(Debug, Drop)]
pub struct Done {
    pub ending: Ending,
    pub marks: Option<u64>,
}

impl Done {
    /// An ending without a run.
    pub fn without_run(ending: Ending) -> Done
        ensures ending { result.ending ≡ ending }
        ensures marks { result.marks ≡ None }
    {
        Done {
            ending,
            marks: None,
        }
    }
}

/// The marks, where the words ask for them and memory did not end the run.
fn marks_of(stats: bool, stop: Stop, marks: u64) -> Option<u64>
    ensures { result ≡ told_marks stats stop marks }
{
    match stop {
        Stop::NoMemory => None,
        Stop::Exit(_)
        | Stop::StopCall { .. }
        | Stop::Steps
        | Stop::Trap { .. }
        | Stop::ReadFault
        | Stop::WriteFault => stats.then_some(marks),
    }
}

/// Runs a machine, at most `steps` instructions, and answers as it stopped.
pub fn run_machine<S: Source, O: Sink>(
    machine: &mut Machine,
    steps: u64,
    stats: bool,
    input: &mut S,
    out: &mut O,
) -> Done
    requires { machine.old.count + steps < 2 ^ 64 }
    ensures ran { RanFrom machine.old steps stats result.ending result.marks (streams_of S.Source O.Sink input.old out.old) (streams_of S.Source O.Sink input.new out.new) }
    ensures read_failed { result.ending ≡ Ending.ReadFault → Rose (S.fault_count input.old) (S.fault_count input.new) }
    ensures write_failed { result.ending ≡ Ending.WriteFault → Rose (O.fault_count out.old) (O.fault_count out.new) }
    ensures unnoted { result.ending ≢ Ending.NoteFault }
    ensures read_counted { S.fault_count input.old ≤ S.fault_count input.new }
    ensures write_counted { O.fault_count out.old ≤ O.fault_count out.new }
    ensures untouched { (given : List ℕ) → (image_run steps machine.old given).asked ≡ 0 → input.new ≡ input.old }
    ensures unread { (given : List ℕ) → (image_run steps machine.old given).asked ≡ 0 → result.ending ≢ Ending.ReadFault }
{
    let stop = machine.run(steps, input, out);
    let marks = marks_of(stats, stop, machine.marks());
    Done {
        ending: ending_of(steps, stop),
        marks,
    }
}
