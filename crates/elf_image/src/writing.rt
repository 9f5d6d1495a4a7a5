//! From images to files.

ghost use Rattle.std.specs.Prelude.{◌≡◌, ◌≤◌, ◌<◌, ◌+◌, ◌*◌, ◌^◌, ◌++◌, length, All, OnOk, IfOk, Ok};
ghost use Rattle.std.specs.Int.{next_multiple_of};
ghost use Rattle.fsc_base.specs.Image.{IsSound, IsSoundSegment, total_size};
ghost use Rattle.elf_image.specs.Reading.{image_at};
ghost use Rattle.elf_image.specs.Writing.{start_of, end_of, placed, headers_size, program_headers, contents, elf_of};

use crate::file_header::{FILE_HEADER_BYTES, FileHeader, PROGRAM_HEADER_BYTES};
use crate::program_header::{ALIGNMENT, ProgramHeader};
use fsc_base::{Bytes, Image, NoMemory, Segment};
use std::alloc::Global;

/// Where the bytes of a segment begin in a file, behind `end` other bytes.
fn start_of(end: usize, bytes: &[u8]) -> usize
    requires { end < 2 ^ 63 }
    ensures { result ≡ start_of end bytes.now }
{
    if bytes.is_empty() {
        0
    } else {
        end.next_multiple_of(ALIGNMENT)
    }
}

/// Where they end.
fn end_of(end: usize, bytes: &[u8]) -> usize
    requires { end < 2 ^ 63 }
    ensures { result ≡ end_of end bytes.now }
{
    if bytes.is_empty() {
        end
    } else {
        end.next_multiple_of(ALIGNMENT) + bytes.len()
    }
}

/// How many bytes the headers of so many segments take.
fn headers_size(count: usize) -> usize
    requires { count ≤ 64 }
    ensures { result ≡ headers_size count }
{
    usize::from(FILE_HEADER_BYTES) + usize::from(PROGRAM_HEADER_BYTES) * count
}

/// How many bytes the file of these segments has.
fn file_size(segments: &[Segment]) -> usize
    requires few { length segments.now ≤ 64 }
    requires bounded { total_size segments.now ≤ 2 ^ 31 }
    requires each { All IsSoundSegment segments.now }
    ensures { let end = headers_size (length segments.now) in
        result ≡ end + length (contents end segments.now) }
{
    let mut end = headers_size(segments.len());
    for segment in segments {
        end = end_of(end, segment.bytes.as_slice());
    }
    end
}

/// Writes a program header for each segment at the end.
fn push_program_headers(file: &mut Vec<u8>, segments: &[Segment]) -> Result<(), NoMemory>
    requires few { length segments.now ≤ 64 }
    requires bounded { total_size segments.now ≤ 2 ^ 31 }
    requires each { All IsSoundSegment segments.now }
    ensures { let end = headers_size (length segments.now) in
        OnOk result (file.new.items ≡ file.old.items ++ program_headers end segments.now) }
{
    let mut end = headers_size(segments.len());
    for segment in segments {
        let bytes = segment.bytes.as_slice();
        let offset = start_of(end, bytes) as u32;
        ProgramHeader::of(segment, offset).push(file)?;
        end = end_of(end, bytes);
    }
    Ok(())
}

/// Writes bytes at the end, at a multiple of 16 bytes, if there are any.
fn push_placed(file: &mut Vec<u8>, bytes: &[u8]) -> Result<(), NoMemory>
    ensures { OnOk result (file.new.items ≡ file.old.items ++ placed (length file.old.items) bytes.now) }
{
    if !bytes.is_empty() {
        let end = file.len();
        file.resize(end.next_multiple_of(ALIGNMENT), 0)?;
        file.extend_from_slice(bytes)?;
    }
    Ok(())
}

/// Writes the bytes of each segment at the end.
fn push_contents(file: &mut Vec<u8>, segments: &[Segment]) -> Result<(), NoMemory>
    ensures { OnOk result (file.new.items ≡ file.old.items ++ contents (length file.old.items) segments.now) }
{
    for segment in segments {
        push_placed(file, segment.bytes.as_slice())?;
    }
    Ok(())
}

/// The file of an image.
#[tactic(auto, using(crate::proofs::FileLaws::headers_length))]
fn file_of(alloc: Global, image: &Image) -> Result<Bytes, NoMemory>
    requires { IsSound image.now }
    ensures exact { IfOk result (λ file. file ≡ elf_of image.now) }
    ensures entry { IfOk result (λ _. image.now.entry < 2 ^ 32) }
{
    let segments = image.segments.as_slice();
    let mut file = Vec::with_capacity(alloc, file_size(segments))?;
    FileHeader::of(image.entry, segments.len() as u16).push(&mut file)?;
    push_program_headers(&mut file, segments)?;
    push_contents(&mut file, segments)?;
    Ok(Bytes::from_vec(file))
}

/// The file of an image, an executable for RISC-V: a file header of 52 bytes, a program header of 32 bytes for each
/// segment in their order, and each segment's bytes that has any, at the next multiple of 16, with zeros between. Nothing
/// stands behind the last byte. Refused only for want of memory.
pub fn write_elf(alloc: Global, image: &Image) -> Result<Bytes, NoMemory>
    requires { IsSound image.now }
    // These bytes and no others.
    ensures exact { IfOk result (λ file. file ≡ elf_of image.now) }
    // They are read as that image, if they are few enough to be read.
    ensures again { IfOk result (λ file. length file ≤ 2 ^ 31 → image_at file ≡ Ok image.now) }
{
    file_of(alloc, image)
}
