//! Headers and units of the library.

use case_file::{CaseNo, Field};
use fsc_base::{Bytes, Name};
use libc_wrap::{header, library_count, library_names, library_text};
use std::alloc::Global;

/// How many units of the library there are.
const UNITS: u32 = 37;

/// The text of the header that a field names, or that there is none.
pub fn header_text(alloc: Global, field: &Field) -> Result<Vec<u8>, CaseNo> {
    let name: Name = Bytes::from_vec(field.head_bytes(alloc)?);
    let text = header(&name).unwrap_or(b"no header");
    Ok(Vec::from_slice(alloc, text)?)
}

/// How many units there are, where the field names none, or the names that the unit of that number defines, and its text.
pub fn unit_text(alloc: Global, field: &Field) -> Result<Vec<u8>, CaseNo> {
    if field.head.is_empty() {
        return Ok(library_count().to_string(alloc)?.into_bytes());
    }
    let number: u32 = field.number()?;
    if number >= UNITS {
        return Err(field.malformed("no unit of the library"));
    }
    let mut text = Vec::new(alloc);
    for name in library_names(number) {
        text.extend_from_slice(name)?;
        text.push(b' ')?;
    }
    text.push(b'\n')?;
    text.extend_from_slice(library_text(number))?;
    Ok(text)
}
