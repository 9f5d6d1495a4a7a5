//! Why a file gives no typed unit.

use fsc_base::{Broken, Name};

/// Why a file gives no typed unit.
#[derive(Debug, Drop)]
pub enum FrontNo {
    /// The text breaks a rule, at a place in the file of that name.
    Broken(Broken, Name),
    /// The unit's own file is not there.
    Missing,
    /// The file of that name could not be read.
    FileFault(Name),
    NoMemory,
}
