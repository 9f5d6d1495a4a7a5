//! Images as files for RISC-V in the format of the System V ABI, ELF-32. An image has one file, and a file is read as one
//! image or refused with its first fault.
#![tactic(auto)]

mod fault;
mod file_header;
mod number;
mod program_header;
mod reading;
mod writing;

pub use fault::{ElfFault, ReadElfNo};
pub use reading::read_elf;
pub use writing::write_elf;
