//! Runs of programs.

ghost use Rattle.std.specs.Prelude.{◌≡◌, ◌≢◌, ◌≤◌, Err};
ghost use Rattle.fsc_outside.specs.Counts.{Rose};

use crate::program::Program;
use fsc_base::End;
use fsc_outside::{Gave, Sink, Source, Took};
use mean_eval::{step, taken};
use mean_state::{Action, Moment, Stop};
use start_blocks::{StartNo, address, start_heap};
use std::alloc::Global;

/// How a run of a program's meaning stopped.
#[derive(Clone, Copy, Debug, PartialEq, Eq)]
pub enum Meant {
    /// It ended so, at a cost of at most the bound.
    Ended(End),
    /// No end has come at the cost.
    Cost,
    /// The input could not be read.
    ReadFault,
    /// The output refused a write.
    WriteFault,
    /// No memory was left.
    NoMemory,
    /// The program does what no joined program of checked units does.
    Misfit,
}

/// What a stop of a step answers.
fn stopped(stop: Stop) -> Meant
    ensures unread { result ≢ Meant.ReadFault }
    ensures unwritten { result ≢ Meant.WriteFault }
{
    match stop {
        Stop::Ended(end) => Meant::Ended(end),
        Stop::Misfit => Meant::Misfit,
        Stop::NoMemory => Meant::NoMemory,
    }
}

/// The beginning of a run: `main` is called, and its word is what the program exits with (C90 5.1.2.2.3).
fn beginning(alloc: Global, p: &Program) -> Result<Moment, Meant>
    ensures unread { result ≢ Err Meant.ReadFault }
    ensures unwritten { result ≢ Err Meant.WriteFault }
{
    let heap = match start_heap(alloc, &p.views, &p.numbers) {
        Ok(heap) => heap,
        Err(StartNo::NoMemory) => return Err(Meant::NoMemory),
        Err(_) => return Err(Meant::Misfit),
    };
    let main = address(&heap, p.numbers.entry);
    match Moment::new(alloc, heap, p.start, main) {
        Ok(moment) => Ok(moment),
        Err(_) => Err(Meant::NoMemory),
    }
}

/// Writes a byte.
fn put<O: Sink>(out: &mut O, byte: u8) -> Result<(), Meant>
    ensures unread { result ≢ Err Meant.ReadFault }
    ensures write_failed { result ≡ Err Meant.WriteFault → Rose (O.fault_count out.old) (O.fault_count out.new) }
    ensures counted { O.fault_count out.old ≤ O.fault_count out.new }
{
    match out.write(&[byte]) {
        Gave::Moved(_) => Ok(()),
        Gave::Failed => Err(Meant::WriteFault),
        Gave::NoMemory => Err(Meant::NoMemory),
    }
}

/// Takes the next byte of the input, or none at its end.
fn get<S: Source>(input: &mut S) -> Result<Option<u8>, Meant>
    ensures unwritten { result ≢ Err Meant.WriteFault }
    ensures read_failed { result ≡ Err Meant.ReadFault → Rose (S.fault_count input.old) (S.fault_count input.new) }
    ensures counted { S.fault_count input.old ≤ S.fault_count input.new }
{
    let mut buffer = [0u8; 1];
    match input.read(&mut buffer) {
        Took::Moved(_) => Ok(Some(buffer[0])),
        Took::End => Ok(None),
        Took::Failed => Err(Meant::ReadFault),
    }
}

/// What a step did that goes on, where so much may be spent besides 1; gives what is left.
fn pay<S: Source, O: Sink>(
    m: &mut Moment,
    action: Action,
    left: u64,
    input: &mut S,
    out: &mut O,
) -> Result<u64, Meant>
    ensures read_failed { result ≡ Err Meant.ReadFault → Rose (S.fault_count input.old) (S.fault_count input.new) }
    ensures write_failed { result ≡ Err Meant.WriteFault → Rose (O.fault_count out.old) (O.fault_count out.new) }
    ensures read_counted { S.fault_count input.old ≤ S.fault_count input.new }
    ensures write_counted { O.fault_count out.old ≤ O.fault_count out.new }
{
    match action {
        Action::Steps(besides) => match left.checked_sub(besides) {
            Some(rest) => Ok(rest),
            None => Err(Meant::Cost),
        },
        Action::Puts(byte) => match put(out, byte) {
            Ok(()) => Ok(left),
            Err(no) => Err(no),
        },
        Action::Takes => match get(input) {
            Ok(byte) => leave(m, byte, left),
            Err(no) => Err(no),
        },
    }
}

/// Leaves the byte that was taken.
fn leave(m: &mut Moment, byte: Option<u8>, left: u64) -> Result<u64, Meant>
    ensures unread { result ≢ Err Meant.ReadFault }
    ensures unwritten { result ≢ Err Meant.WriteFault }
{
    match taken(m, byte) {
        Ok(()) => Ok(left),
        Err(stop) => Err(stopped(stop)),
    }
}

/// One step where so much may be spent besides 1; gives what is left.
fn spend<S: Source, O: Sink>(
    m: &mut Moment,
    p: &Program,
    left: u64,
    input: &mut S,
    out: &mut O,
) -> Result<u64, Meant>
    ensures read_failed { result ≡ Err Meant.ReadFault → Rose (S.fault_count input.old) (S.fault_count input.new) }
    ensures write_failed { result ≡ Err Meant.WriteFault → Rose (O.fault_count out.old) (O.fault_count out.new) }
    ensures read_counted { S.fault_count input.old ≤ S.fault_count input.new }
    ensures write_counted { O.fault_count out.old ≤ O.fault_count out.new }
{
    match step(m, &p.rows, &p.callees) {
        Ok(action) => pay(m, action, left, input, out),
        Err(stop) => Err(stopped(stop)),
    }
}

/// Steps until one stops or nothing is left to spend. Each costs 1 or more.
#[tactic(auto, using(fsc_outside::proofs::Earlier::rose_earlier))]
fn go_on<S: Source, O: Sink>(
    m: &mut Moment,
    p: &Program,
    cost: u64,
    input: &mut S,
    out: &mut O,
) -> Meant
    ensures read_failed { result ≡ Meant.ReadFault → Rose (S.fault_count input.old) (S.fault_count input.new) }
    ensures write_failed { result ≡ Meant.WriteFault → Rose (O.fault_count out.old) (O.fault_count out.new) }
    ensures read_counted { S.fault_count input.old ≤ S.fault_count input.new }
    ensures write_counted { O.fault_count out.old ≤ O.fault_count out.new }
{
    let mut left = cost;
    'steps: for _ in 0..cost {
        if left == 0 {
            return Meant::Cost;
        }
        match spend(m, p, left - 1, input, out) {
            Ok(rest) => left = rest,
            Err(meant) => return meant,
        }
    }
    Meant::Cost
}

/// Runs a program as far as it comes at a cost: each step costs 1; a call costs the number of the function's parameters besides, the
/// making of a block and the clearing of an aggregate its words, a copy its bytes. The answer is the end, where it has come
/// by then. `ReadFault` comes only where the count of the input's faults rose, `WriteFault` only where that of the output's did. It
/// takes memory for all objects of the program, and what it makes.
pub fn run_mean<S: Source, O: Sink>(
    alloc: Global,
    p: &Program,
    cost: u64,
    input: &mut S,
    out: &mut O,
) -> Meant
    ensures read_failed { result ≡ Meant.ReadFault → Rose (S.fault_count input.old) (S.fault_count input.new) }
    ensures write_failed { result ≡ Meant.WriteFault → Rose (O.fault_count out.old) (O.fault_count out.new) }
    ensures read_counted { S.fault_count input.old ≤ S.fault_count input.new }
    ensures write_counted { O.fault_count out.old ≤ O.fault_count out.new }
{
    match beginning(alloc, p) {
        Ok(mut moment) => go_on(&mut moment, p, cost, input, out),
        Err(meant) => meant,
    }
}
