//! Bit-fields (C90 6.5.2.1).

ghost use Rattle.std.specs.Prelude.{◌≡◌, ◌<◌, ◌≤◌, ◌+◌, ◌*◌, ◌^◌};
ghost use Rattle.c_ops.specs.Bits.{field_of, replaced_in};

use crate::words::{and, or, plain};
use fsc_base::Word;

/// What a bit-field of `count` bits from bit `first` on has of its unit, extended by its sign or by zeros. It has no base.
pub fn field(first: u32, count: u32, is_signed: bool, unit: Word) -> Word
    requires some { 0 < count }
    requires within { first + count ≤ 32 }
    ensures { result ≡ field_of first count is_signed unit }
{
    let size = 1u64 << count;
    let bits = (u64::from(unit.value) >> first) % size;
    let is_negative = is_signed && (1 << (count - 1)) <= bits;
    plain(if is_negative {
        bits + ((1 << 32) - size)
    } else {
        bits
    } as u32)
}

/// So many bits, moved up to bit `first`.
#[tactic(auto, using(crate::proofs::Masks::moved_fits))]
fn moved_up(bits: u64, first: u32, count: u32) -> u32
    requires bits { bits < 2 ^ count }
    requires within { first + count ≤ 32 }
    ensures { result ≡ bits * 2 ^ first }
{
    (bits << first) as u32
}

/// The unit with these bits replaced by the low ones of `value`. It keeps its base.
pub fn replaced(first: u32, count: u32, unit: Word, value: Word) -> Word
    requires some { 0 < count }
    requires within { first + count ≤ 32 }
    ensures { result ≡ replaced_in first count unit value }
{
    let size = 1u64 << count;
    let mask = moved_up(size - 1, first, count);
    let bits = moved_up(u64::from(value.value) % size, first, count);
    or(and(unit, plain(u32::MAX - mask)), plain(bits))
}
