//! Descriptors: shapes in bytes. The count of the words stands in four bytes, the lowest first; then comes a byte for each
//! word, 0 for a narrow one and 1 for a fat one, and zeros to a multiple of four.

ghost use Rattle.std.specs.Prelude.{◌≡◌, ◌++◌, ◌↔◌, length, map, replicate, IfOk, IsTrue, OnOk};
ghost use Rattle.type_desc.specs.Descriptors.{byte_of, descriptor_of, FindsKindBytes, FindsKind, FindsKinds, Reads};

use crate::kinds::Kinds;
use crate::period::least_period;
use crate::shape::Shape;
use byteorder::{ByteOrder, LittleEndian};
use fsc_base::{Bytes, NoMemory, WordKind};
use std::alloc::Global;

/// How many bytes the count of words takes.
const COUNT_SIZE: usize = 4;

/// The most words of a shape.
const MOST_WORDS: usize = 1024;

/// The byte of a kind.
fn byte_of(kind: WordKind) -> u8
    ensures { result ≡ byte_of kind }
{
    match kind {
        WordKind::Narrow => 0,
        WordKind::Fat => 1,
    }
}

/// Writes the bytes of kinds at the end.
fn push_kinds(bytes: &mut Vec<u8>, kinds: &[WordKind]) -> Result<(), NoMemory>
    ensures { OnOk result (bytes.new.items ≡ bytes.old.items ++ map byte_of kinds.now) }
{
    for kind in kinds {
        bytes.push(byte_of(*kind))?;
    }
    Ok(())
}

/// The descriptor of a shape. Refused only for want of memory.
#[tactic(auto, unfolding(crate::specs::Descriptors::counted))]
pub fn encode_desc(alloc: Global, shape: &Shape) -> Result<Bytes, NoMemory>
    ensures { IfOk result (λ bytes. bytes ≡ descriptor_of shape.now) }
{
    let kinds = shape.kinds();
    let mut bytes = Vec::from_slice(alloc, &[0; COUNT_SIZE])?;
    LittleEndian::write_u32(&mut bytes, shape.words());
    push_kinds(&mut bytes, kinds)?;
    bytes.resize(COUNT_SIZE + kinds.len().next_multiple_of(4), 0)?;
    Ok(Bytes::from_vec(bytes))
}

/// Whether each byte is zero.
fn are_zeros(bytes: &[u8]) -> bool
    ensures { IsTrue result ↔ bytes.now ≡ replicate (length bytes.now) 0 }
{
    bytes.iter().all(|byte| *byte == 0)
}

/// The bytes of the kinds of a descriptor at the front, where it counts 1 to 1,024 words and ends in zeros, all of which
/// stand there.
fn kind_bytes(bytes: &[u8]) -> Option<&[u8]>
    ensures { FindsKindBytes bytes.now result }
{
    if bytes.len() < COUNT_SIZE {
        return None;
    }
    let count = LittleEndian::read_u32(bytes) as usize;
    if count == 0 || MOST_WORDS < count {
        return None;
    }
    let end = COUNT_SIZE + count.next_multiple_of(4);
    if bytes.len() < end || !are_zeros(&bytes[COUNT_SIZE + count..end]) {
        return None;
    }
    Some(&bytes[COUNT_SIZE..COUNT_SIZE + count])
}

/// The kind whose byte this is, if any.
fn kind_of(byte: u8) -> Option<WordKind>
    ensures { FindsKind byte result }
{
    match byte {
        0 => Some(WordKind::Narrow),
        1 => Some(WordKind::Fat),
        _ => None,
    }
}

/// The kinds of these bytes, or None where a byte is no kind's.
fn kinds_of(alloc: Global, bytes: &[u8]) -> Result<Option<Kinds>, NoMemory>
    ensures { IfOk result (FindsKinds bytes.now) }
{
    let mut kinds = Vec::with_capacity(alloc, bytes.len())?;
    for byte in bytes {
        let Some(kind) = kind_of(*byte) else {
            return Ok(None);
        };
        kinds.push(kind)?;
    }
    Ok(Some(Kinds::from_vec(kinds)))
}

/// The shape whose descriptor stands at the front of these bytes, or None exactly where there is none. Refused only for
/// want of memory.
pub fn decode_desc(alloc: Global, bytes: &[u8]) -> Result<Option<Shape>, NoMemory>
    ensures { IfOk result (Reads bytes.now) }
{
    let Some(spelled) = kind_bytes(bytes) else {
        return Ok(None);
    };
    let Some(kinds) = kinds_of(alloc, spelled)? else {
        return Ok(None);
    };
    if least_period(kinds.as_slice()) < kinds.as_slice().len() {
        return Ok(None);
    }
    Ok(Some(Shape::from_least(alloc, kinds.as_slice())?))
}
