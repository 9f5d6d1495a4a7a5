//! Endings of meanings.

ghost use Rattle.std.specs.Prelude.{◌≡◌};
ghost use Rattle.fsc_commands.specs.Ends.{ending_of_end, ending_of_meant};

use c_mean::Meant;
use fsc_base::End;
use fsc_ending::{Ending, Form, StopKind, Storage};

/// The ending of a program that stopped itself so. A number that the kind does not name is 0.
fn stopped(kind: StopKind, block: u32, offset: u32, width: u32) -> Ending
    ensures { result ≡ Ending.Stopped kind block offset width }
{
    Ending::Stopped {
        kind,
        block,
        offset,
        width,
    }
}

/// The ending of a meaning with that end. A number that the end does not name is 0.
fn ending_of_end(end: End) -> Ending
    ensures { result ≡ ending_of_end end }
{
    match end {
        End::Exit(status) => Ending::Exited(status),
        End::Access {
            block,
            offset,
            width,
        } => stopped(StopKind::Access, block, offset, width),
        End::ReadOnly {
            block,
            offset,
            width,
        } => stopped(StopKind::ReadOnly, block, offset, width),
        End::Call { block, offset } => stopped(StopKind::Call, block, offset, 0),
        End::Divide => stopped(StopKind::Divide, 0, 0, 0),
        End::Abort => stopped(StopKind::Abort, 0, 0, 0),
        End::Blocks => Ending::OutOfStorage(Storage::Blocks),
        End::Depth => Ending::OutOfStorage(Storage::Depth),
    }
}

/// The ending of a meaning that was followed up to a cost.
pub(crate) fn ending_of_meant(meant: Meant, cost: u64) -> Ending
    ensures { result ≡ ending_of_meant meant cost }
{
    match meant {
        Meant::Ended(end) => ending_of_end(end),
        Meant::Cost => Ending::CostUsed(cost),
        Meant::ReadFault => Ending::ReadFault,
        Meant::WriteFault => Ending::WriteFault,
        Meant::NoMemory => Ending::NoMemory,
        Meant::Misfit => Ending::NotBuilt(Form::Text),
    }
}
