//! The headers that say where the segments are.

ghost use Rattle.std.specs.Prelude.{◌≡◌, ◌≤◌, ◌<◌, ◌+◌, ◌^◌, ◌++◌, [], ◌∷◌, length, IsTrue, IfOk, OnOk};
ghost use Rattle.std.specs.List.{list_any};
ghost use Rattle.fsc_base.specs.Image.{total_size};
ghost use Rattle.elf_image.specs.Fields.{program_header_at, segment_of, loaded_segment, is_loaded};
ghost use Rattle.elf_image.specs.Checking.{Checks};
ghost use Rattle.elf_image.specs.Faults.{segment_row, is_overfull, passes_file, passes_memory, has_no_right, overlaps, is_too_much, is_unfit, is_faulty};
ghost use Rattle.elf_image.specs.Writing.{program_header, program_header_of};

use crate::fault::{ElfFault, ReadElfNo, refuse_if};
use crate::number::{push_words, word_at};
use fsc_base::{Bytes, NoMemory, Segment};
use std::alloc::Global;

/// The type of a header whose segment is loaded into memory.
const LOADED: u32 = 1;

/// In a file that is written the bytes of each segment begin at a multiple of this.
pub const ALIGNMENT: usize = 16;

/// The most bytes of memory that the segments of an image take together.
const MOST_BYTES: u64 = 0x8000_0000;

/// The fields of a program header that are read.
#[derive(Clone, Copy, Debug)]
pub struct ProgramHeader {
    /// What the segment is for.
    pub kind: u32,
    /// Where the segment's bytes begin in the file.
    pub offset: u32,
    /// The address of its first byte.
    pub address: u32,
    /// How many bytes it has in the file.
    pub file_size: u32,
    /// How many bytes it takes in memory.
    pub memory_size: u32,
    /// Its rights, in the low three bits.
    pub flags: u32,
}

impl ProgramHeader {
    /// The header that begins at `place` in the file.
    fn read(file: &[u8], place: usize) -> ProgramHeader
        requires { place + 32 ≤ length file.now }
        ensures { result ≡ program_header_at file.now place }
    {
        ProgramHeader {
            kind: word_at(file, place),
            offset: word_at(file, place + 4),
            address: word_at(file, place + 8),
            file_size: word_at(file, place + 16),
            memory_size: word_at(file, place + 20),
            flags: word_at(file, place + 24),
        }
    }

    /// The header that begins at `place` in the file, unless it is loaded and faulty beside the segments before it.
    pub fn checked(file: &[u8], place: u32, before: &[Segment]) -> Result<ProgramHeader, ReadElfNo>
        requires within { place + 32 ≤ length file.now }
        requires bounded { total_size before.now ≤ 2 ^ 31 }
        ensures exact { Checks (segment_row file.now before.now place ∷ []) result }
        ensures found { IfOk result (λ header. header ≡ program_header_at file.now place) }
        ensures inside { IfOk result (λ header. IsTrue (is_loaded header) → header.offset + header.file_size ≤ length file.now) }
    {
        let header = ProgramHeader::read(file, place as usize);
        let faulty = header.is_loaded() && header.is_faulty(file.len(), before);
        refuse_if(faulty, ElfFault::Segment, place)?;
        Ok(header)
    }

    /// The header of a segment whose bytes begin at `offset` in the file.
    pub fn of(segment: &Segment, offset: u32) -> ProgramHeader
        requires { length segment.now.bytes < 2 ^ 32 }
        ensures { result ≡ program_header_of offset segment.now }
    {
        ProgramHeader {
            kind: LOADED,
            offset,
            address: segment.address,
            file_size: segment.bytes.as_slice().len() as u32,
            memory_size: segment.size,
            flags: segment.flags,
        }
    }

    /// Writes it at the end, with the address as the physical address too.
    #[tactic(auto, unfolding(crate::specs::Writing::program_header))]
    pub fn push(&self, file: &mut Vec<u8>) -> Result<(), NoMemory>
        ensures { OnOk result (file.new.items ≡ file.old.items ++ program_header self.now) }
    {
        push_words(
            file,
            &[
                self.kind,
                self.offset,
                self.address,
                self.address,
                self.file_size,
                self.memory_size,
                self.flags,
                ALIGNMENT as u32,
            ],
        )
    }

    /// Adds its segment to those before it, if it is loaded.
    pub fn add_segment(
        &self,
        alloc: Global,
        file: &[u8],
        segments: &mut Vec<Segment>,
    ) -> Result<(), NoMemory>
        requires { IsTrue (is_loaded self.now) → self.now.offset + self.now.file_size ≤ length file.now }
        ensures { OnOk result (segments.new.items ≡ segments.old.items ++ loaded_segment file.now self.now) }
    {
        if self.is_loaded() {
            segments.push(self.segment(alloc, file)?)?;
        }
        Ok(())
    }

    /// Its segment, with a copy of its bytes.
    fn segment(&self, alloc: Global, file: &[u8]) -> Result<Segment, NoMemory>
        requires { self.now.offset + self.now.file_size ≤ length file.now }
        ensures { IfOk result (λ segment. segment ≡ segment_of file.now self.now) }
    {
        let start = self.offset as usize;
        let end = start + self.file_size as usize;
        Ok(Segment {
            address: self.address,
            size: self.memory_size,
            flags: self.flags % 8,
            bytes: Bytes::from_slice(alloc, &file[start..end])?,
        })
    }

    /// Whether its segment is part of the image: it is loaded, and takes memory.
    fn is_loaded(&self) -> bool
        ensures { result ≡ is_loaded self.now }
    {
        self.kind == LOADED && self.memory_size > 0
    }

    /// Whether it has more bytes in the file than in memory.
    fn is_overfull(&self) -> bool
        ensures { result ≡ is_overfull self.now }
    {
        self.file_size > self.memory_size
    }

    /// Whether its bytes pass the end of a file of `file_size` bytes.
    fn passes_file(&self, file_size: usize) -> bool
        ensures { result ≡ passes_file file_size self.now }
    {
        u64::from(self.offset) + u64::from(self.file_size) > file_size as u64
    }

    /// Whether it passes the end of memory, of 2^32 bytes.
    fn passes_memory(&self) -> bool
        ensures { result ≡ passes_memory self.now }
    {
        u64::from(self.address) + u64::from(self.memory_size) > 1 << 32
    }

    /// Whether its memory may be neither read, nor written, nor executed.
    fn has_no_right(&self) -> bool
        ensures { result ≡ has_no_right self.now }
    {
        self.flags % 8 == 0
    }

    /// Whether it shares an address with the segment.
    fn overlaps(&self, segment: &Segment) -> bool
        ensures { result ≡ overlaps self.now segment.now }
    {
        u64::from(self.address) < u64::from(segment.address) + u64::from(segment.size)
            && u64::from(segment.address) < u64::from(self.address) + u64::from(self.memory_size)
    }

    /// Whether it shares an address with one of the segments.
    fn overlaps_one_of(&self, before: &[Segment]) -> bool
        ensures { result ≡ list_any (overlaps self.now) before.now }
    {
        before.iter().any(|segment| self.overlaps(segment))
    }

    /// Whether it takes more than 2^31 bytes of memory together with the segments before it.
    fn is_too_much(&self, before: &[Segment]) -> bool
        requires { total_size before.now ≤ 2 ^ 31 }
        ensures { result ≡ is_too_much before.now self.now }
    {
        let taken: u64 = before.iter().map(|segment| u64::from(segment.size)).sum();
        taken + u64::from(self.memory_size) > MOST_BYTES
    }

    /// Whether no image can have its segment, whatever else it has.
    fn is_unfit(&self, file_size: usize) -> bool
        ensures { result ≡ is_unfit file_size self.now }
    {
        self.is_overfull()
            || self.passes_file(file_size)
            || self.passes_memory()
            || self.has_no_right()
    }

    /// Whether no image can have its segment beside those before it.
    fn is_faulty(&self, file_size: usize, before: &[Segment]) -> bool
        requires { total_size before.now ≤ 2 ^ 31 }
        ensures { result ≡ is_faulty file_size before.now self.now }
    {
        self.is_unfit(file_size) || self.overlaps_one_of(before) || self.is_too_much(before)
    }
}
