//! The command `demo`.

ghost use Rattle.std.specs.Prelude.{◌≡◌, ◌≢◌, ◌+◌, ◌^◌, ◌<◌, ◌≤◌, false, None};
ghost use Rattle.fsc_base.specs.Image.{IsSound};
ghost use Rattle.fsc_outside.specs.Counts.{Rose};
ghost use Rattle.fsc_run.specs.Running.{RanFrom};
ghost use Rattle.fsc_commands.specs.Demonstrating.{most_steps, without_input, RunsImage, RunsDemo};

use crate::closing::close;
use crate::no_input::NoInput;
use crate::own_image::own_image;
use crate::refusal::ending_of_refusal;
use fsc_base::Image;
use fsc_ending::Ending;
use fsc_outside::Sink;
use fsc_run::run_machine;
use rv_run::Machine;
use std::alloc::Global;

/// The most instructions that the demonstration runs.
const MOST_STEPS: u64 = 10_000_000_000;

/// Runs a machine on no input, and answers as it stopped.
fn run_alone<O: Sink>(machine: &mut Machine, out: &mut O) -> Ending
    requires { machine.old.count + most_steps < 2 ^ 64 }
    ensures ran { RanFrom machine.old most_steps false result None (without_input (O.written out.old)) (without_input (O.written out.new)) }
    ensures write_failed { result ≡ Ending.WriteFault → Rose (O.fault_count out.old) (O.fault_count out.new) }
    ensures unnoted { result ≢ Ending.NoteFault }
    ensures unread { result ≢ Ending.ReadFault }
    ensures write_counted { O.fault_count out.old ≤ O.fault_count out.new }
{
    let mut input = NoInput;
    let done = run_machine(machine, MOST_STEPS, false, &mut input, out);
    done.ending
}

/// Leaves a sound image in `made`, runs it on no input, and writes the line of its exit. Where memory for the machine is refused, no
/// image is left there.
fn run_made<O: Sink>(
    alloc: Global,
    image: Image,
    count: u32,
    out: &mut O,
    made: &mut Option<Image>,
) -> Ending
    requires sound { IsSound image }
    requires none { made.old ≡ None }
    ensures ran { RunsImage image made.new result count (out.new ≡ out.old) (O.written out.old) (O.written out.new) }
    ensures write_failed { result ≡ Ending.WriteFault → Rose (O.fault_count out.old) (O.fault_count out.new) }
    ensures unnoted { result ≢ Ending.NoteFault }
    ensures unread { result ≢ Ending.ReadFault }
    ensures write_counted { O.fault_count out.old ≤ O.fault_count out.new }
{
    let Ok(mut machine) = Machine::new(alloc, &image) else {
        return Ending::NoMemory;
    };
    *made = Some(image);
    let said = run_alone(&mut machine, out);
    close(alloc, count, said, out)
}

/// Builds the program of the demonstration of that number, leaves its image in `made` and runs it, at most 10^10 instructions of it,
/// on no input. Where it exits with a status S, the line `demo N exits S` is written behind its output, with the decimals of both
/// numbers. The answer is how the run ended: also an exit keeps its status, and is `WriteFault` or `NoMemory` where its line could
/// not be written whole. Or there is no program, and the answer says why.
pub fn demo<O: Sink>(alloc: Global, count: u32, out: &mut O, made: &mut Option<Image>) -> Ending
    requires { made.old ≡ None }
    ensures ran { RunsDemo made.new result count (out.new ≡ out.old) (O.written out.old) (O.written out.new) }
    ensures write_failed { result ≡ Ending.WriteFault → Rose (O.fault_count out.old) (O.fault_count out.new) }
    ensures unnoted { result ≢ Ending.NoteFault }
    ensures unread { result ≢ Ending.ReadFault }
    ensures write_counted { O.fault_count out.old ≤ O.fault_count out.new }
{
    match own_image(alloc, count) {
        Ok(image) => run_made(alloc, image, count, out, made),
        Err(no) => ending_of_refusal(no),
    }
}
