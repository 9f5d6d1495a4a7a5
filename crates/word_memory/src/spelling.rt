//! Words as bytes.

ghost use Rattle.std.specs.Prelude.{◌≡◌, flat_map, IfOk};
ghost use Rattle.std.specs.Int.{w32, to_le_bytes};

use fsc_base::{Bytes, NoMemory};
use std::alloc::Global;

/// The bytes of words, one word behind the other, the lowest byte of each first. Refused only for want of memory.
pub fn spell_words(alloc: Global, words: &[u32]) -> Result<Bytes, NoMemory>
    ensures { IfOk result (λ bytes. bytes ≡ flat_map (to_le_bytes w32) words.now) }
{
    let mut bytes = Vec::new(alloc);
    for word in words {
        bytes.extend_from_slice(&word.to_le_bytes())?;
    }
    Ok(Bytes::from_vec(bytes))
}
