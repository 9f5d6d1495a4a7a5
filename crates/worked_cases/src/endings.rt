//! Endings in words.

use c_link::LinkFault;
use fsc_base::Name;
use fsc_tool::Ending;
use std::alloc::{AllocError, Global};

/// An ending as a case names it: its name, and its values in the order of their fields, of a place the file and the line.
pub fn told(alloc: Global, ending: &Ending) -> Result<String, AllocError> {
    match ending {
        Ending::Exited(status) => format!(in alloc; "Exited {status}"),
        Ending::Stopped {
            kind,
            block,
            offset,
            width,
        } => format!(in alloc; "Stopped {kind:?} {block} {offset} {width}"),
        Ending::OutOfStorage(storage) => format!(in alloc; "OutOfStorage {storage:?}"),
        Ending::StepsUsed(count) => format!(in alloc; "StepsUsed {count}"),
        Ending::CostUsed(cost) => format!(in alloc; "CostUsed {cost}"),
        Ending::Usage => String::from_str(alloc, "Usage"),
        Ending::MissingFile(name) => named(alloc, "MissingFile", name),
        Ending::FileFault(name) => named(alloc, "FileFault", name),
        Ending::ReadFault => String::from_str(alloc, "ReadFault"),
        Ending::WriteFault => String::from_str(alloc, "WriteFault"),
        Ending::NoteFault => String::from_str(alloc, "NoteFault"),
        Ending::Rejected { rule, place, file } => {
            let file = String::from_utf8_lossy(alloc, file.as_slice())?;
            format!(in alloc; "Rejected {rule:?} {file} {}", place.line)
        }
        Ending::LinkRefused(fault) => linked(alloc, fault),
        Ending::BadUnit {
            name,
            fault,
            offset,
        } => {
            let name = String::from_utf8_lossy(alloc, name.as_slice())?;
            format!(in alloc; "BadUnit {name} {fault:?} {offset}")
        }
        Ending::BadImage { fault, offset } => format!(in alloc; "BadImage {fault:?} {offset}"),
        Ending::Trap { kind, pc } => format!(in alloc; "Trap {kind:?} {pc}"),
        Ending::NotBuilt(form) => format!(in alloc; "NotBuilt {form:?}"),
        Ending::NoMemory => String::from_str(alloc, "NoMemory"),
    }
}

/// A word and a name behind it.
fn named(alloc: Global, word: &str, name: &Name) -> Result<String, AllocError> {
    let name = String::from_utf8_lossy(alloc, name.as_slice())?;
    format!(in alloc; "{word} {name}")
}

/// A fault of linking: its rule and its name, and what more is told of it.
fn linked(alloc: Global, fault: &LinkFault) -> Result<String, AllocError> {
    let name = String::from_utf8_lossy(alloc, fault.name.as_slice())?;
    let first = String::from_utf8_lossy(alloc, fault.first.as_slice())?;
    let second = String::from_utf8_lossy(alloc, fault.second.as_slice())?;
    if first.is_empty() && second.is_empty() {
        return format!(in alloc; "LinkRefused {:?} {name}", fault.rule);
    }
    format!(in alloc; "LinkRefused {:?} {name}: {first} / {second}", fault.rule)
}
