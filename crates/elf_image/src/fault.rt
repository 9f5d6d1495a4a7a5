//! Why a file can't be read as an image.

ghost use Rattle.std.specs.Prelude.{◌≡◌, [], ◌∷◌};
ghost use Rattle.elf_image.specs.declared.fault.ReadElfNo.TheVariants.{NoMemory};
ghost use Rattle.elf_image.specs.Checking.{Checks};
ghost use Rattle.elf_image.specs.Faults.{row};

use fsc_base::NoMemory;
use std::alloc::{AllocError, AllocFailed};

/// What is wrong with a file. `read_elf` says when each comes, and with which offset.
#[derive(Clone, Copy, Debug, PartialEq, Eq)]
pub enum ElfFault {
    /// It has fewer bytes than a file header.
    Short,
    /// It doesn't begin as a 32-bit ELF file whose numbers have their lowest byte first.
    Magic,
    /// It isn't an executable for RISC-V.
    Machine,
    /// It has too many bytes, another version, or no table of 1 to 64 program headers within it.
    Header,
    /// It has a segment that no image can have beside those before it, or none.
    Segment,
}

/// Why `read_elf` refuses.
#[derive(Clone, Copy, Debug, PartialEq, Eq)]
pub enum ReadElfNo {
    /// The bytes are no image. This is their first fault, and the place in the file that shows it, in bytes.
    Bad { fault: ElfFault, offset: u32 },
    /// No memory was left for the image.
    NoMemory,
}

impl From<NoMemory> for ReadElfNo {
    ghost from_gives = { λ _ e. e ≡ NoMemory };

    fn from(_error: NoMemory) -> ReadElfNo {
        ReadElfNo::NoMemory
    }
}

impl From<AllocError> for ReadElfNo {
    ghost from_gives = { λ _ e. e ≡ NoMemory };

    fn from(_error: AllocError) -> ReadElfNo {
        ReadElfNo::NoMemory
    }
}

impl<T: Drop> From<AllocFailed<T>> for ReadElfNo {
    ghost from_gives = { λ _ e. e ≡ NoMemory };

    fn from(_error: AllocFailed<T>) -> ReadElfNo {
        ReadElfNo::NoMemory
    }
}

/// Refuses with this fault and offset where a rule is `broken`.
pub fn refuse_if(broken: bool, fault: ElfFault, offset: u32) -> Result<(), ReadElfNo>
    ensures { Checks (row fault broken offset ∷ []) result }
{
    if broken {
        return Err(ReadElfNo::Bad { fault, offset });
    }
    Ok(())
}
