//! Images of code that a case spells.

use case_file::{CaseNo, Field};
use elf_image::write_elf;
use fsc_base::{Bytes, Image, Segment, Segments};
use std::alloc::Global;

/// Where the code begins.
const CODE: u32 = 0x10000;

/// Where the data begins.
const DATA: u32 = 0x20000;

/// How many bytes of data there are.
const DATA_SIZE: u32 = 8;

/// The most bytes of code, so that it ends before the data.
const MOST_CODE: u32 = DATA - CODE;

/// The file of an image whose code is the field's bytes: it may be read and executed, and the entry is its first byte.
/// Behind it are 8 bytes of data that may be read and written. Refused where there is no code or too much of it.
pub fn file_of_code(alloc: Global, field: &Field) -> Result<Bytes, CaseNo> {
    let size = match u32::try_from(field.body.len()) {
        Ok(size) if 0 < size && size <= MOST_CODE => size,
        _ => return Err(field.malformed("no code of 1 to 65,536 bytes")),
    };
    let image = image_of_code(alloc, &field.body, size)?;
    if !image.is_sound() {
        return Err(field.malformed("no sound image"));
    }
    write_elf(alloc, &image).map_err(|_| CaseNo::NoMemory)
}

/// The image of that code.
fn image_of_code(alloc: Global, code: &[u8], size: u32) -> Result<Image, CaseNo> {
    let code = Segment {
        address: CODE,
        size,
        flags: 5,
        bytes: Bytes::from_vec(Vec::from_slice(alloc, code)?),
    };
    let data = Segment {
        address: DATA,
        size: DATA_SIZE,
        flags: 6,
        bytes: Bytes::from_vec(Vec::new(alloc)),
    };
    Ok(Image {
        entry: CODE,
        segments: Segments::from_vec(vec![in alloc; code, data]?),
    })
}
