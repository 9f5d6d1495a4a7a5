//! Images of programs of the first path.

use crate::refusals::no_memory;
use case_file::{CaseNo, Field};
use fsc_base::{Image, Segment};
use plain_image::image;
use std::alloc::{AllocError, Global};

/// The image of a program that writes a field's bytes and exits with the status that its head is: a line for the entry,
/// and one for each segment with its address, its size, its flags and its bytes.
pub fn image_listed(alloc: Global, field: &Field) -> Result<Vec<u8>, CaseNo> {
    if field.body.len() > 1000 {
        return Err(field.malformed("more than 1,000 bytes"));
    }
    let made = image(alloc, &field.body, field.number()?).map_err(no_memory)?;
    Ok(listed(alloc, &made)?.into_bytes())
}

/// An image in words.
fn listed(alloc: Global, image: &Image) -> Result<String, AllocError> {
    let mut text = format!(in alloc; "entry {:#x}\n", image.entry)?;
    for segment in image.segments.as_slice() {
        push_segment(&mut text, segment)?;
    }
    Ok(text)
}

/// Puts a segment's line behind a text.
fn push_segment(text: &mut String, segment: &Segment) -> Result<(), AllocError> {
    let (address, size, flags) = (segment.address, segment.size, segment.flags);
    write!(text, "at {address:#x} {size} bytes, flags {flags}:")?;
    for word in segment.bytes.as_slice().chunks(4) {
        text.push_str(" ")?;
        for byte in word {
            write!(text, "{byte:02x}")?;
        }
    }
    text.push_str("\n")
}
