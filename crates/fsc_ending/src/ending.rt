//! How a call of the tool ends.

ghost use Rattle.std.specs.Prelude.{◌≡◌};
ghost use Rattle.fsc_ending.specs.Ending.{status_of, ending_of, stopped_as};

use c_link::LinkFault;
use elf_image::ElfFault;
use fat_code::UnitFault;
use fsc_base::{Name, Place, Rule};
use rv_run::{Stop, TrapKind};

/// What is not built yet.
#[derive(Clone, Copy, Debug, PartialEq, Eq)]
pub enum Form {
    /// The command that the words name, or its options.
    Command,
    /// The text of the file.
    Text,
}

/// Why a program stopped itself.
#[derive(Clone, Copy, Debug, PartialEq, Eq)]
pub enum StopKind {
    /// An access outside a live block.
    Access,
    /// A call of what is no function, or of another type.
    Call,
    /// A division by zero.
    Divide,
    /// A call of `abort`.
    Abort,
    /// A write to a sealed block.
    ReadOnly,
}

/// Which storage of a program was used up.
#[derive(Clone, Copy, Debug, PartialEq, Eq)]
pub enum Storage {
    /// That of its blocks.
    Blocks,
    /// That of its nested calls.
    Depth,
}

/// How a call of the tool ends.
#[derive(Debug, Drop)]
pub enum Ending {
    /// The program that was run exited with this status.
    Exited(u8),
    /// The program that was run stopped itself: at this access, or by a call of this place, in bytes. A number that the
    /// kind does not name is 0.
    Stopped {
        kind: StopKind,
        block: u32,
        offset: u32,
        width: u32,
    },
    /// The program that was run stopped itself, since its storage was used up.
    OutOfStorage(Storage),
    /// As many instructions ran as were asked for, without an end.
    StepsUsed(u64),
    /// The meaning of the program has no end at this cost.
    CostUsed(u64),
    /// There are no words or more than 1,000, a word is not UTF-8, or no command takes them.
    Usage,
    /// There is no file of that name.
    MissingFile(Name),
    /// The file of that name could not be read.
    FileFault(Name),
    /// The input could not be read.
    ReadFault,
    /// The output refused a write.
    WriteFault,
    /// The notes refused a write.
    NoteFault,
    /// A text breaks a rule at a place of a file.
    Rejected {
        rule: Rule,
        place: Place,
        file: Name,
    },
    /// Units that each are taken make no program.
    LinkRefused(LinkFault),
    /// The file of that name is no unit file: its first fault, and where in the file, in bytes.
    BadUnit {
        name: Name,
        fault: UnitFault,
        offset: u32,
    },
    /// The file is no image: its first fault, and where in the file, in bytes.
    BadImage {
        fault: ElfFault,
        offset: u32,
    },
    /// The machine has no row for what the image asks of it at this pc.
    Trap {
        kind: TrapKind,
        pc: u32,
    },
    /// The command or the text is outside what is built so far.
    NotBuilt(Form),
    /// No memory was left.
    NoMemory,
}

/// The exit status of the program after that ending: the number that the program that was run exited with, or one from
/// 115 to 127.
pub fn status(ending: &Ending) -> u8
    ensures { result ≡ status_of ending.now }
{
    match ending {
        Ending::Exited(status) => *status,
        Ending::Stopped { .. } => 120,
        Ending::OutOfStorage(_) => 121,
        Ending::StepsUsed(_) => 122,
        Ending::CostUsed(_) => 115,
        Ending::Usage => 125,
        Ending::MissingFile(_) | Ending::FileFault(_) => 126,
        Ending::ReadFault | Ending::WriteFault | Ending::NoteFault => 127,
        Ending::Rejected { .. } => 123,
        Ending::LinkRefused(_) => 124,
        Ending::BadUnit { .. } | Ending::BadImage { .. } => 119,
        Ending::Trap { .. } => 118,
        Ending::NotBuilt(_) => 116,
        Ending::NoMemory => 117,
    }
}

/// The ending of a program that stopped itself so.
fn stopped_at(kind: StopKind, block: u32, offset: u32, width: u32) -> Ending
    ensures { result ≡ Ending.Stopped kind block offset width }
{
    Ending::Stopped {
        kind,
        block,
        offset,
        width,
    }
}

/// The ending of a program that stopped itself with a kind from 1 to 7. A number that the kind does not name is 0,
/// whatever the program gave.
fn stopped(kind: u32, block: u32, offset: u32, width: u32) -> Ending
    ensures { result ≡ stopped_as kind block offset width }
{
    match kind {
        1 => stopped_at(StopKind::Access, block, offset, width),
        2 => stopped_at(StopKind::Call, block, offset, 0),
        3 => stopped_at(StopKind::Divide, 0, 0, 0),
        4 => stopped_at(StopKind::Abort, 0, 0, 0),
        5 => Ending::OutOfStorage(Storage::Blocks),
        6 => Ending::OutOfStorage(Storage::Depth),
        _ => stopped_at(StopKind::ReadOnly, block, offset, width),
    }
}

/// The ending of a run of at most `steps` instructions that stopped so.
pub fn ending_of(steps: u64, stop: Stop) -> Ending
    ensures { result ≡ ending_of steps stop }
{
    match stop {
        Stop::Exit(status) => Ending::Exited(status),
        Stop::StopCall {
            kind,
            block,
            offset,
            width,
        } => stopped(kind, block, offset, width),
        Stop::Steps => Ending::StepsUsed(steps),
        Stop::Trap { kind, pc } => Ending::Trap { kind, pc },
        Stop::ReadFault => Ending::ReadFault,
        Stop::WriteFault => Ending::WriteFault,
        Stop::NoMemory => Ending::NoMemory,
    }
}
