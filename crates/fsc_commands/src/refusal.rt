//! The endings of refusals.

ghost use Rattle.std.specs.Prelude.{◌≡◌};
ghost use Rattle.fsc_commands.specs.Refusing.{ending_of_refusal};

use fsc_core::CoreNo;
use fsc_ending::{Ending, Form};

/// The ending of a refusal of files. What fits nowhere is a text that is not built.
pub fn ending_of_refusal(no: CoreNo) -> Ending
    ensures { result ≡ ending_of_refusal no }
{
    match no {
        CoreNo::Broken(broken, file) => Ending::Rejected {
            rule: broken.rule,
            place: broken.place,
            file,
        },
        CoreNo::Missing(file) => Ending::MissingFile(file),
        CoreNo::FileFault(file) => Ending::FileFault(file),
        CoreNo::Link(fault) => Ending::LinkRefused(fault),
        CoreNo::Misfit => Ending::NotBuilt(Form::Text),
        CoreNo::NoMemory => Ending::NoMemory,
    }
}
