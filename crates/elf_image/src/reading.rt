//! From files to images.

ghost use Rattle.std.specs.Prelude.{◌≡◌, ◌≤◌, ◌+◌, ◌*◌, ◌^◌, ◌<◌, length, IfOk, Ok};
ghost use Rattle.fsc_base.specs.declared.image.Image.{Image};
ghost use Rattle.fsc_base.specs.Image.{IsSound};
ghost use Rattle.elf_image.specs.Fields.{file_header_at};
ghost use Rattle.elf_image.specs.Checking.{ReadsSegments};
ghost use Rattle.elf_image.specs.Reading.{Gives, image_at};
ghost use Rattle.elf_image.specs.Writing.{elf_of};

use crate::fault::{ElfFault, ReadElfNo, refuse_if};
use crate::file_header::FileHeader;
use crate::program_header::ProgramHeader;
use fsc_base::{Image, Segment, Segments};
use std::alloc::Global;

/// The segments of the program headers, in their order.
#[tactic(auto, unfolding(crate::specs::Faults::segment_rows, crate::specs::Fields::segments_before), using(crate::proofs::Soundness::bounded_before, crate::proofs::SegmentLoop::segment_rows_more))]
fn segments_of(alloc: Global, file: &[u8], header: &FileHeader) -> Result<Vec<Segment>, ReadElfNo>
    requires of_file { header.now ≡ file_header_at file.now }
    requires within { header.now.table + 32 * header.now.count ≤ length file.now }
    requires most { length file.now ≤ 2 ^ 31 }
    ensures { ReadsSegments file.now header.now.count result }
{
    let mut segments = Vec::new(alloc);
    for index in 0..header.count {
        let place = header.place_of(index);
        let found = ProgramHeader::checked(file, place, &segments)?;
        found.add_segment(alloc, file, &mut segments)?;
    }
    Ok(segments)
}

/// The image in a file, or the first fault of the table.
fn image(alloc: Global, bytes: &[u8]) -> Result<Image, ReadElfNo>
    ensures { Gives result (image_at bytes.now) }
{
    let header = FileHeader::checked(bytes)?;
    let segments = Segments::from_vec(segments_of(alloc, bytes, &header)?);
    refuse_if(segments.as_slice().is_empty(), ElfFault::Segment, 52)?;
    Ok(Image {
        entry: header.entry,
        segments,
    })
}

/// The image in a file. Its entry is that of the file header. Its segments are those of the program headers of type 1
/// that take memory, in their order, with the low three bits of the flags, and a copy of their bytes.
///
/// Refused as `Bad` exactly where the file has a fault, which is the first of these, with an offset in bytes:
///
/// - `Short`: fewer than 52 bytes; the offset is their number.
/// - `Header` at 0: more than 2^31 bytes.
/// - `Magic` at the first of bytes 0 to 6 that isn't that of 7f, `ELF`, 1, 1, 1.
/// - `Machine` at 16: another type than 2, an executable. At 18: another machine than 243, RISC-V.
/// - `Header` at 20: another version than 1. At 44: no program header, or more than 64. At 42: program headers of another
///   size than 32 bytes. At 28: a table of them that passes the end.
/// - `Segment` at the first program header of type 1 that takes memory and has more bytes in the file than in memory,
///   bytes past the end of the file, memory past 2^32, none of the low three flags, an address of a segment before it,
///   or, together with those before it, more than 2^31 bytes of memory.
/// - `Segment` at 52: no program header of type 1 that takes memory.
///
/// Bytes 7 to 15, the flags of the file, all that tells of sections, physical addresses, alignments and other program
/// headers are not looked at. Refused as `NoMemory` where no memory is left for the segments and their bytes.
pub fn read_elf(alloc: Global, bytes: &[u8]) -> Result<Image, ReadElfNo>
    // It is the image, or the first fault and its offset.
    ensures exact { Gives result (image_at bytes.now) }
    // What is read is sound.
    ensures found { IfOk result (λ image. IsSound image) }
    // What was written for an image is read as that image.
    ensures again { (image : Image) → IsSound image → image.entry < 2 ^ 32 → length (elf_of image) ≤ 2 ^ 31
        → bytes.now ≡ elf_of image → Gives result (Ok image) }
{
    image(alloc, bytes)
}
