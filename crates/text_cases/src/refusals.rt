//! Refusals in words.

use case_file::CaseNo;
use fsc_base::{NoMemory, Refused};
use std::alloc::Global;

/// The rule that is broken and its line, or want of memory.
pub fn refusal_told(alloc: Global, refused: Refused) -> Result<Vec<u8>, CaseNo> {
    match refused {
        Refused::Broken(broken) => {
            let (rule, line) = (broken.rule, broken.place.line);
            Ok(format!(in alloc; "{rule:?} {line}")?.into_bytes())
        }
        Refused::NoMemory => Err(CaseNo::NoMemory),
    }
}

/// Want of memory, as the refusal of a case.
pub fn no_memory(_: NoMemory) -> CaseNo {
    CaseNo::NoMemory
}
