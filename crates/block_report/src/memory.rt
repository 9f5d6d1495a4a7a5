//! Words, headers and descriptors in the memory of a machine.

ghost use Rattle.std.specs.Prelude.{◌≡◌, ◌+◌, ◌^◌, ◌<◌, IfOk};
ghost use Rattle.block_report.specs.Memory.{word_at, words_told, header_at, IsBytesAt, ShapeAt};

use block_header::{Header, read_header};
use fsc_base::{Bytes, NoMemory};
use rv_run::Machine;
use std::alloc::Global;
use type_desc::{Kinds, decode_desc};

/// Where the headers begin.
const HEADERS: u64 = 0x4000_0000;

/// How many bytes a header has.
const HEADER_BYTES: u64 = 16;

/// The most words of a shape.
const MOST_WORDS: u32 = 1024;

/// The word at an address, or None where there is none or it can't be read.
#[tactic(auto, using(crate::proofs::Words::word_found), unfolding(crate::specs::Memory::word_at))]
pub fn word_at(machine: &Machine, at: u64) -> Option<u32>
    ensures { result ≡ word_at machine.now at }
{
    match u32::try_from(at) {
        Ok(at) => machine.word(at),
        Err(_) => None,
    }
}

/// The header of a block, or None where a part of it can't be read. Blocks count from 1.
#[tactic(auto, unfolding(crate::specs::Memory::header_at))]
pub fn header_at(machine: &Machine, block: u32) -> Option<Header>
    requires { 0 < block }
    ensures { result ≡ header_at machine.now block }
{
    let at = HEADERS + HEADER_BYTES * (u64::from(block) - 1);
    let desc = word_at(machine, at)?;
    let size = word_at(machine, at + 4)?;
    let base = word_at(machine, at + 8)?;
    let cell = word_at(machine, at + 12)?;
    Some(read_header(&[desc, size, base, cell], 1))
}

/// How many words a descriptor has that begins with this one: none where no shape has so many words.
fn words_told(count: Option<u32>) -> u32
    ensures told { result ≡ words_told count }
    ensures few { result < 2 ^ 9 }
{
    match count {
        Some(count) if count <= MOST_WORDS => 1 + count.div_ceil(4),
        _ => 0,
    }
}

/// The bytes of so many words from an address on, or None where a word of them can't be read.
fn bytes_at(
    alloc: Global,
    machine: &Machine,
    at: u64,
    words: u32,
) -> Result<Option<Bytes>, NoMemory>
    requires { at < 2 ^ 32 }
    ensures { IfOk result (IsBytesAt machine.now at words) }
{
    let mut bytes = Vec::new(alloc);
    for i in 0..words {
        let Some(word) = word_at(machine, at + 4 * u64::from(i)) else {
            return Ok(None);
        };
        bytes.extend_from_slice(&word.to_le_bytes())?;
    }
    Ok(Some(Bytes::from_vec(bytes)))
}

/// The shape whose descriptor stands at an address, or None where none does. Refused only for want of memory.
pub fn shape_at(alloc: Global, machine: &Machine, at: u64) -> Result<Option<Kinds>, NoMemory>
    requires { at < 2 ^ 32 }
    ensures { IfOk result (ShapeAt machine.now at) }
{
    let words = words_told(word_at(machine, at));
    let Some(bytes) = bytes_at(alloc, machine, at, words)? else {
        return Ok(None);
    };
    match decode_desc(alloc, bytes.as_slice())? {
        Some(shape) => Ok(Some(shape.into_kinds())),
        None => Ok(None),
    }
}
