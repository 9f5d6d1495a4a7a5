//! Arithmetic of words, one function for each row.

ghost use Rattle.std.specs.Prelude.{◌≡◌};
ghost use Rattle.c_ops.specs.Words.{one_base, left_base, sum_of, difference_of, product_of, quotient_of, unsigned_quotient_of, remainder_of, unsigned_remainder_of, and_of, or_of, xor_of, shifted_left_of, shifted_right_of, unsigned_shifted_right_of, equal_of, unequal_of, less_of, unsigned_less_of, not_greater_of, unsigned_not_greater_of, minus_of, complement_of, not_of, truth};
ghost use Rattle.c_ops.specs.Words.{plain as plain_word};

use fsc_base::Word;

/// A word without a base.
pub(crate) fn plain(value: u32) -> Word
    ensures { result ≡ plain_word value }
{
    Word { value, block: 0 }
}

/// 1 or 0, without a base.
fn truth_word(holds: bool) -> Word
    ensures { result ≡ truth holds }
{
    plain(u32::from(holds))
}

/// The base where exactly one operand has one.
fn base_of_one(left: u32, right: u32) -> u32
    ensures { result ≡ one_base left right }
{
    match (left, right) {
        (0, _) => right,
        (_, 0) => left,
        _ => 0,
    }
}

/// The left base where the right operand has none.
fn base_of_left(left: u32, right: u32) -> u32
    ensures { result ≡ left_base left right }
{
    if right == 0 { left } else { 0 }
}

pub(crate) fn sum(left: Word, right: Word) -> Word
    ensures { result ≡ sum_of left right }
{
    Word {
        value: left.value.wrapping_add(right.value),
        block: base_of_one(left.block, right.block),
    }
}

pub(crate) fn difference(left: Word, right: Word) -> Word
    ensures { result ≡ difference_of left right }
{
    Word {
        value: left.value.wrapping_sub(right.value),
        block: base_of_left(left.block, right.block),
    }
}

pub(crate) fn and(left: Word, right: Word) -> Word
    ensures { result ≡ and_of left right }
{
    Word {
        value: left.value & right.value,
        block: base_of_one(left.block, right.block),
    }
}

pub(crate) fn or(left: Word, right: Word) -> Word
    ensures { result ≡ or_of left right }
{
    Word {
        value: left.value | right.value,
        block: base_of_one(left.block, right.block),
    }
}

pub(crate) fn xor(left: Word, right: Word) -> Word
    ensures { result ≡ xor_of left right }
{
    Word {
        value: left.value ^ right.value,
        block: base_of_one(left.block, right.block),
    }
}

pub(crate) fn product(left: Word, right: Word) -> Word
    ensures { result ≡ product_of left right }
{
    plain(left.value.wrapping_mul(right.value))
}

/// Toward zero; of the least int by -1 it is itself.
pub(crate) fn quotient(left: Word, right: Word) -> Option<Word>
    ensures { result ≡ quotient_of left right }
{
    if right.value == 0 {
        return None;
    }
    let value = left
        .value
        .cast_signed()
        .wrapping_div(right.value.cast_signed());
    Some(plain(value.cast_unsigned()))
}

/// With the sign of the left operand.
pub(crate) fn remainder(left: Word, right: Word) -> Option<Word>
    ensures { result ≡ remainder_of left right }
{
    if right.value == 0 {
        return None;
    }
    let value = left
        .value
        .cast_signed()
        .wrapping_rem(right.value.cast_signed());
    Some(plain(value.cast_unsigned()))
}

pub(crate) fn quotient_unsigned(left: Word, right: Word) -> Option<Word>
    ensures { result ≡ unsigned_quotient_of left right }
{
    if right.value == 0 {
        return None;
    }
    Some(plain(left.value / right.value))
}

pub(crate) fn remainder_unsigned(left: Word, right: Word) -> Option<Word>
    ensures { result ≡ unsigned_remainder_of left right }
{
    if right.value == 0 {
        return None;
    }
    Some(plain(left.value % right.value))
}

pub(crate) fn shifted_left(left: Word, right: Word) -> Word
    ensures { result ≡ shifted_left_of left right }
{
    plain(left.value << (right.value % 32))
}

pub(crate) fn shifted_right(left: Word, right: Word) -> Word
    ensures { result ≡ shifted_right_of left right }
{
    plain((left.value.cast_signed() >> (right.value % 32)).cast_unsigned())
}

pub(crate) fn shifted_right_unsigned(left: Word, right: Word) -> Word
    ensures { result ≡ unsigned_shifted_right_of left right }
{
    plain(left.value >> (right.value % 32))
}

pub(crate) fn equal(left: Word, right: Word) -> Word
    ensures { result ≡ equal_of left right }
{
    truth_word(left.value == right.value)
}

pub(crate) fn unequal(left: Word, right: Word) -> Word
    ensures { result ≡ unequal_of left right }
{
    truth_word(left.value != right.value)
}

pub(crate) fn less(left: Word, right: Word) -> Word
    ensures { result ≡ less_of left right }
{
    truth_word(left.value.cast_signed() < right.value.cast_signed())
}

pub(crate) fn less_unsigned(left: Word, right: Word) -> Word
    ensures { result ≡ unsigned_less_of left right }
{
    truth_word(left.value < right.value)
}

pub(crate) fn not_greater(left: Word, right: Word) -> Word
    ensures { result ≡ not_greater_of left right }
{
    truth_word(left.value.cast_signed() <= right.value.cast_signed())
}

pub(crate) fn not_greater_unsigned(left: Word, right: Word) -> Word
    ensures { result ≡ unsigned_not_greater_of left right }
{
    truth_word(left.value <= right.value)
}

pub(crate) fn negated(word: Word) -> Word
    ensures { result ≡ minus_of word }
{
    plain(word.value.wrapping_neg())
}

pub(crate) fn complemented(word: Word) -> Word
    ensures { result ≡ complement_of word }
{
    plain(!word.value)
}

/// 1 where the value is 0, else 0.
pub(crate) fn truth_denied(word: Word) -> Word
    ensures { result ≡ not_of word }
{
    truth_word(word.value == 0)
}
