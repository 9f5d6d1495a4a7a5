//! The line behind what the program of the demonstration wrote.

ghost use Rattle.std.specs.Prelude.{◌≡◌, ◌≢◌, ◌++◌, ◌≤◌, ◌⊎◌, IfOk, OnOk};
ghost use Rattle.std.specs.Fmt.{decimal};
ghost use Rattle.fsc_outside.specs.Counts.{Rose};
ghost use Rattle.fsc_commands.specs.Demonstrating.{exit_line, exit_of, Closes};

use fsc_base::{Bytes, NoMemory};
use fsc_ending::Ending;
use fsc_outside::{Sink, Wrote, write_whole};
use std::alloc::Global;

/// Adds a text, and the decimal of a number behind it.
fn add(alloc: Global, line: &mut Vec<u8>, head: &[u8], number: u32) -> Result<(), NoMemory>
    ensures { OnOk result (line.new.items ≡ line.old.items ++ (head.now ++ decimal number)) }
{
    let Ok(digits) = number.to_string(alloc) else {
        return Err(NoMemory);
    };
    line.extend_from_slice(head)?;
    line.extend_from_slice(digits.as_bytes())?;
    Ok(())
}

/// The line that tells the status of an exit.
fn exit_line(alloc: Global, count: u32, status: u8) -> Result<Bytes, NoMemory>
    ensures { IfOk result (λ line. line ≡ exit_line count status) }
{
    let mut line = Vec::new(alloc);
    add(alloc, &mut line, b"demo ", count)?;
    add(alloc, &mut line, b" exits ", u32::from(status))?;
    line.push(b'\n')?;
    Ok(Bytes::from_vec(line))
}

/// The status of an exit; None of every other ending.
fn exit_of(ending: &Ending) -> Option<u8>
    ensures { result ≡ exit_of ending.now }
{
    match ending {
        Ending::Exited(status) => Some(*status),
        _ => None,
    }
}

/// Writes the line that tells the status of an exit, and answers that ending, or what takes its place where the line could not be
/// written whole.
fn write_exit<O: Sink>(alloc: Global, count: u32, status: u8, out: &mut O) -> Ending
    ensures closes { Closes count (Ending.Exited status) result (O.written out.old) (O.written out.new) }
    ensures write_failed { result ≡ Ending.WriteFault → Rose (O.fault_count out.old) (O.fault_count out.new) }
    ensures unnoted { result ≢ Ending.NoteFault }
    ensures unread { result ≢ Ending.ReadFault }
    ensures write_counted { O.fault_count out.old ≤ O.fault_count out.new }
{
    match exit_line(alloc, count, status) {
        Ok(line) => match write_whole(out, line.as_slice()) {
            Wrote::Whole => Ending::Exited(status),
            Wrote::Failed => Ending::WriteFault,
            Wrote::NoMemory => Ending::NoMemory,
        },
        Err(NoMemory) => Ending::NoMemory,
    }
}

/// Writes what stands behind the output of a run that ended so: the line of an exit, and nothing behind every other ending. Answers the
/// ending, or what takes its place where the line could not be written whole.
pub(crate) fn close<O: Sink>(alloc: Global, count: u32, said: Ending, out: &mut O) -> Ending
    ensures closes { Closes count said result (O.written out.old) (O.written out.new) }
    ensures write_failed { result ≡ Ending.WriteFault → (said ≡ Ending.WriteFault) ⊎ Rose (O.fault_count out.old) (O.fault_count out.new) }
    ensures unnoted { said ≢ Ending.NoteFault → result ≢ Ending.NoteFault }
    ensures unread { said ≢ Ending.ReadFault → result ≢ Ending.ReadFault }
    ensures write_counted { O.fault_count out.old ≤ O.fault_count out.new }
{
    match exit_of(&said) {
        Some(status) => write_exit(alloc, count, status, out),
        None => said,
    }
}
