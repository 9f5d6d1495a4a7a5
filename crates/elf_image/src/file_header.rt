//! The header at the front of a file.

ghost use Rattle.std.specs.Prelude.{◌≡◌, ◌≤◌, ◌+◌, ◌*◌, ◌^◌, ◌<◌, ◌++◌, length, OnOk, IfOk};
ghost use Rattle.elf_image.specs.Fields.{file_header_at};
ghost use Rattle.elf_image.specs.Checking.{Checks};
ghost use Rattle.elf_image.specs.Faults.{size_rows, magic_rows, machine_rows, table_rows, file_rows};
ghost use Rattle.elf_image.specs.Writing.{file_header, file_header_of};

use crate::fault::{ElfFault, ReadElfNo, refuse_if};
use crate::number::{half_at, push_halves, push_words, word_at};
use fsc_base::NoMemory;

/// How many bytes a file header takes.
pub const FILE_HEADER_BYTES: u16 = 52;

/// How many bytes a program header takes.
pub const PROGRAM_HEADER_BYTES: u16 = 32;

/// The most bytes of a file that is read.
const MOST_FILE_BYTES: usize = 0x8000_0000;

/// The most program headers of a file that is read.
const MOST_HEADERS: u16 = 64;

/// What a file begins with: the name of the format, 32-bit, lowest byte first, version 1.
const MAGIC: [u8; 7] = [0x7f, b'E', b'L', b'F', 1, 1, 1];

/// The type of an executable file.
const EXECUTABLE: u16 = 2;

/// The number of RISC-V among the machines.
const RISC_V: u16 = 243;

/// The one version of the format.
const VERSION: u32 = 1;

/// The fields of a file header that are read.
#[derive(Clone, Copy, Debug)]
pub struct FileHeader {
    /// What the file is for.
    pub kind: u16,
    /// The machine that it is for.
    pub machine: u16,
    /// The version of the format.
    pub version: u32,
    /// The address of the first instruction.
    pub entry: u32,
    /// Where the table of program headers begins in the file, in bytes.
    pub table: u32,
    /// How many bytes each program header takes.
    pub header_size: u16,
    /// How many program headers there are.
    pub count: u16,
}

/// Refuses a file that is too short for a header, or too long.
fn check_size(file: &[u8]) -> Result<(), ReadElfNo>
    ensures exact { Checks (size_rows file.now) result }
    ensures within { OnOk result (52 ≤ length file.now) }
    ensures most { OnOk result (length file.now ≤ 2 ^ 31) }
{
    if file.len() < usize::from(FILE_HEADER_BYTES) {
        return Err(ReadElfNo::Bad {
            fault: ElfFault::Short,
            offset: file.len() as u32,
        });
    }
    refuse_if(file.len() > MOST_FILE_BYTES, ElfFault::Header, 0)
}

/// Refuses a file that begins in another way.
fn check_magic(file: &[u8]) -> Result<(), ReadElfNo>
    requires { 52 ≤ length file.now }
    ensures { Checks (magic_rows file.now) result }
{
    for (place, byte) in MAGIC.iter().enumerate() {
        refuse_if(file[place] != *byte, ElfFault::Magic, place as u32)?;
    }
    Ok(())
}

impl FileHeader {
    /// The header of a file that begins as one.
    fn read(file: &[u8]) -> FileHeader
        requires { 52 ≤ length file.now }
        ensures { result ≡ file_header_at file.now }
    {
        FileHeader {
            kind: half_at(file, 16),
            machine: half_at(file, 18),
            version: word_at(file, 20),
            entry: word_at(file, 24),
            table: word_at(file, 28),
            header_size: half_at(file, 42),
            count: half_at(file, 44),
        }
    }

    /// The header of a file, or the fault of the first rule that the file breaks, up to those of the header.
    #[tactic(auto, unfolding(crate::specs::Faults::file_rows), using(crate::proofs::FaultLaws::after_none, crate::proofs::FaultLaws::after_some))]
    pub fn checked(file: &[u8]) -> Result<FileHeader, ReadElfNo>
        ensures exact { Checks (file_rows file.now) result }
        ensures found { IfOk result (λ header. header ≡ file_header_at file.now) }
        ensures few { IfOk result (λ header. header.count ≤ 64) }
        ensures within { IfOk result (λ header. header.table + 32 * header.count ≤ length file.now) }
        ensures most { OnOk result (length file.now ≤ 2 ^ 31) }
    {
        check_size(file)?;
        check_magic(file)?;
        let header = FileHeader::read(file);
        header.check_machine()?;
        header.check_table(file.len())?;
        Ok(header)
    }

    /// The header of an executable for RISC-V whose table of program headers stands behind it.
    pub fn of(entry: u32, count: u16) -> FileHeader
        ensures { result ≡ file_header_of entry count }
    {
        FileHeader {
            kind: EXECUTABLE,
            machine: RISC_V,
            version: VERSION,
            entry,
            table: u32::from(FILE_HEADER_BYTES),
            header_size: PROGRAM_HEADER_BYTES,
            count,
        }
    }

    /// Writes it at the end, with no flags and no table of sections.
    #[tactic(auto, unfolding(crate::specs::Writing::file_header))]
    pub fn push(&self, file: &mut Vec<u8>) -> Result<(), NoMemory>
        ensures { OnOk result (file.new.items ≡ file.old.items ++ file_header self.now) }
    {
        file.extend_from_slice(&MAGIC)?;
        file.extend_from_slice(&[0; 9])?;
        push_halves(file, &[self.kind, self.machine])?;
        push_words(file, &[self.version, self.entry, self.table, 0, 0])?;
        push_halves(
            file,
            &[FILE_HEADER_BYTES, self.header_size, self.count, 0, 0, 0],
        )
    }

    /// Where the program header of an index begins in the file.
    pub fn place_of(&self, index: u16) -> u32
        requires { self.now.table + 32 * index < 2 ^ 32 }
        ensures { result ≡ self.now.table + 32 * index }
    {
        self.table + u32::from(PROGRAM_HEADER_BYTES) * u32::from(index)
    }

    /// Refuses what is no executable for RISC-V.
    fn check_machine(&self) -> Result<(), ReadElfNo>
        ensures { Checks (machine_rows self.now) result }
    {
        refuse_if(self.kind != EXECUTABLE, ElfFault::Machine, 16)?;
        refuse_if(self.machine != RISC_V, ElfFault::Machine, 18)
    }

    /// Refuses another version, and a table of program headers that isn't one of 1 to 64 within a file of `file_size`
    /// bytes.
    fn check_table(&self, file_size: usize) -> Result<(), ReadElfNo>
        ensures exact { Checks (table_rows file_size self.now) result }
        ensures few { OnOk result (self.now.count ≤ 64) }
        ensures within { OnOk result (self.now.table + 32 * self.now.count ≤ file_size) }
    {
        refuse_if(self.version != VERSION, ElfFault::Header, 20)?;
        refuse_if(
            self.count == 0 || self.count > MOST_HEADERS,
            ElfFault::Header,
            44,
        )?;
        refuse_if(
            self.header_size != PROGRAM_HEADER_BYTES,
            ElfFault::Header,
            42,
        )?;
        let end = u64::from(self.table) + u64::from(PROGRAM_HEADER_BYTES) * u64::from(self.count);
        refuse_if(end > file_size as u64, ElfFault::Header, 28)
    }
}
