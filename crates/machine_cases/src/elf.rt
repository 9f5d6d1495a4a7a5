//! ELF32 files that a case writes down, reads and changes.

use crate::draft::Draft;
use crate::told::{Told, tell, tell_count};
use case_table::{NoStep, bytes_of_hex, hex_of, number_of};
use elf_image::{ElfFault, ReadElfNo, read_elf, write_elf};
use std::alloc::Global;

/// The bytes of a file.
#[derive(Drop)]
pub struct ElfFile {
    bytes: Vec<u8>,
}

/// The name of a fault.
fn name_of(fault: ElfFault) -> &'static str {
    match fault {
        ElfFault::Short => "short",
        ElfFault::Magic => "magic",
        ElfFault::Machine => "machine",
        ElfFault::Header => "header",
        ElfFault::Segment => "segment",
    }
}

impl ElfFile {
    /// A file with no bytes.
    pub fn new(alloc: Global) -> ElfFile {
        ElfFile {
            bytes: Vec::new(alloc),
        }
    }

    /// Puts bytes in place of those from an index on, as far as the file goes.
    fn change(&mut self, place: u32, bytes: &[u8]) {
        for (i, byte) in bytes.iter().enumerate() {
            if let Some(slot) = self.bytes.get_mut((place as usize).saturating_add(i)) {
                *slot = *byte;
            }
        }
    }

    /// Reads the file as an image, which is then what is written down.
    fn read(&self, alloc: Global, draft: &mut Draft) -> Told {
        match read_elf(alloc, &self.bytes) {
            Ok(image) => {
                draft.set(image);
                tell(alloc, "ok")
            }
            Err(ReadElfNo::Bad { fault, offset }) => {
                let name = name_of(fault);
                Ok(Some(format!(in alloc; "{name} {offset}")?))
            }
            Err(ReadElfNo::NoMemory) => Err(NoStep::NoMemory),
        }
    }

    /// Writes what is written down as the file. Its length.
    fn write(&mut self, alloc: Global, draft: &Draft) -> Told {
        let image = draft.image(alloc, Vec::new(alloc), None)?;
        if !image.is_sound() {
            return tell(alloc, "unsound");
        }
        self.bytes = write_elf(alloc, &image)?.into_vec();
        tell_count(alloc, self.bytes.len() as u64)
    }

    /// Does a step of a file.
    pub fn step(&mut self, alloc: Global, words: &[&str], draft: &mut Draft) -> Told {
        match words {
            ["file", bytes @ ..] => {
                self.bytes.extend_from_slice(&bytes_of_hex(alloc, bytes)?)?;
            }
            ["cut", length] => self.bytes.truncate(number_of(length)? as usize),
            ["change", place, bytes @ ..] => {
                self.change(number_of(place)?, &bytes_of_hex(alloc, bytes)?);
            }
            ["read_elf"] => return self.read(alloc, draft),
            ["write_elf"] => return self.write(alloc, draft),
            ["bytes", from, count] => {
                let (from, count) = (number_of(from)? as usize, number_of(count)? as usize);
                let part = self.bytes.get(from..from.saturating_add(count));
                return Ok(Some(hex_of(alloc, part.unwrap_or(&[]))?));
            }
            _ => return Ok(None),
        }
        tell(alloc, "ok")
    }
}
