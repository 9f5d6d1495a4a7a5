//! Conversions of words.

ghost use Rattle.std.specs.Prelude.{◌≡◌};
ghost use Rattle.c_ops.specs.Bits.{narrowed_to};
ghost use Rattle.c_ops.specs.Words.{scaled_by};

use crate::bits::field;
use crate::words::{plain, product};
use fsc_base::{Width, Word};

/// A word as a type of this width has it (C90 6.2.1.2).
pub fn narrowed(width: Width, is_signed: bool, word: Word) -> Word
    ensures { result ≡ narrowed_to width is_signed word }
{
    match width {
        Width::Four => word,
        Width::Two => field(0, 16, is_signed, word),
        Width::One => field(0, 8, is_signed, word),
    }
}

/// An index in bytes, for elements of `size` bytes (C90 6.3.6).
pub fn scaled(size: u32, index: Word) -> Word
    ensures { result ≡ scaled_by size index }
{
    if size == 1 {
        index
    } else {
        product(index, plain(size))
    }
}
