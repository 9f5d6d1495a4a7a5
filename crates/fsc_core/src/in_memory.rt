//! Files that are held in memory.

use crate::compiling::typed_units;
use crate::refusal::CoreNo;
use c_tree::TypedUnit;
use fsc_base::Name;
use fsc_outside::MemFiles;
use std::alloc::Global;

/// The typed units of files that are held in memory, in order. Refused as `typed_units`.
pub fn typed_in_memory(
    alloc: Global,
    files: &mut MemFiles,
    names: &[Name],
) -> Result<Vec<TypedUnit>, CoreNo> {
    typed_units(alloc, files, names)
}
