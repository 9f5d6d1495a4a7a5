//! Images that a case writes down segment by segment.

use crate::told::{Told, tell, tell_whether};
use case_table::{NoStep, bytes_of_text, number_of, text_of};
use fsc_base::{Bytes, Image, Segment, Segments};
use std::alloc::Global;

/// An image that is being written down.
#[derive(Drop)]
pub struct Draft {
    entry: u32,
    segments: Vec<Segment>,
}

/// The bytes of words of 32 bits, in hexadecimal digits, the lowest byte of each first.
pub fn code_of(alloc: Global, words: &[&str]) -> Result<Vec<u8>, NoStep> {
    let mut bytes = Vec::new(alloc);
    for word in words {
        let Ok(word) = u32::from_str_radix(word, 16) else {
            return Err(NoStep::Malformed("no word of hexadecimal digits"));
        };
        bytes.extend_from_slice(&word.to_le_bytes())?;
    }
    Ok(bytes)
}

/// A copy of a segment.
fn copy_of(alloc: Global, segment: &Segment) -> Result<Segment, NoStep> {
    Ok(Segment {
        address: segment.address,
        size: segment.size,
        flags: segment.flags,
        bytes: Bytes::from_slice(alloc, segment.bytes.as_slice())?,
    })
}

impl Draft {
    /// An image with no segment and the entry 65536.
    pub fn new(alloc: Global) -> Draft {
        Draft {
            entry: 0x1_0000,
            segments: Vec::new(alloc),
        }
    }

    /// The image, with some segments before those that were written down.
    pub fn image(
        &self,
        alloc: Global,
        before: Vec<Segment>,
        entry: Option<u32>,
    ) -> Result<Image, NoStep> {
        let mut segments = before;
        for segment in &self.segments {
            segments.push(copy_of(alloc, segment)?)?;
        }
        Ok(Image {
            entry: entry.unwrap_or(self.entry),
            segments: Segments::from_vec(segments),
        })
    }

    /// Makes an image what is written down.
    pub fn set(&mut self, image: Image) {
        let Image { entry, segments } = image;
        self.entry = entry;
        self.segments = segments.into_vec();
    }

    /// Adds a segment: its address, its size, its flags and its bytes.
    fn add(&mut self, place: [&str; 3], bytes: Vec<u8>) -> Result<(), NoStep> {
        let [address, size, flags] = place;
        self.segments.push(Segment {
            address: number_of(address)?,
            size: number_of(size)?,
            flags: number_of(flags)?,
            bytes: Bytes::from_vec(bytes),
        })?;
        Ok(())
    }

    /// Adds so many segments, one behind the other.
    fn add_row(&mut self, alloc: Global, count: u32, place: [&str; 3]) -> Result<(), NoStep> {
        let [address, size, flags] = place;
        let mut address = number_of(address)?;
        for _ in 0..count {
            self.segments.push(Segment {
                address,
                size: number_of(size)?,
                flags: number_of(flags)?,
                bytes: Bytes::from_vec(Vec::new(alloc)),
            })?;
            address = address.wrapping_add(number_of(size)?);
        }
        Ok(())
    }

    /// A segment by its index from 0, as its step would write it.
    fn tell_segment(&self, alloc: Global, index: u32) -> Told {
        let Some(segment) = self.segments.get(index as usize) else {
            return tell(alloc, "none");
        };
        let (address, size, flags) = (segment.address, segment.size, segment.flags);
        let bytes = text_of(alloc, segment.bytes.as_slice())?;
        Ok(Some(format!(in alloc; "0x{address:x} {size} {flags} {bytes}")?))
    }

    /// Does a step of an image.
    pub fn step(&mut self, alloc: Global, words: &[&str]) -> Told {
        match words {
            ["entry", entry] => self.entry = number_of(entry)?,
            ["segment", address, size, flags, text] => {
                self.add([address, size, flags], bytes_of_text(alloc, text)?)?;
            }
            ["code", address, size, flags, words @ ..] => {
                self.add([address, size, flags], code_of(alloc, words)?)?;
            }
            ["row", count, address, size, flags] => {
                self.add_row(alloc, number_of(count)?, [address, size, flags])?;
            }
            ["sound"] => {
                let image = self.image(alloc, Vec::new(alloc), None)?;
                return tell_whether(alloc, image.is_sound());
            }
            ["image"] => {
                let (entry, count) = (self.entry, self.segments.len());
                return Ok(Some(format!(in alloc; "0x{entry:x} {count}")?));
            }
            ["segment_at", index] => return self.tell_segment(alloc, number_of(index)?),
            _ => return Ok(None),
        }
        tell(alloc, "ok")
    }
}
