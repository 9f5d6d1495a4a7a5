//! Operations on the bits of a bit-field (C90 6.5.2.1).

use crate::emitter::Emitter;
use c_ops::Binary;
use elab_setting::ElaborateNo;
use fat_code::Op;

/// A word whose lowest bits, so many, are set; at most 32.
fn low_bits(count: u32) -> u32 {
    if count < 32 {
        (1u32 << count).wrapping_sub(1)
    } else {
        u32::MAX
    }
}

/// A word moved up by so many bits; nothing is left of it from 32 on.
fn moved_up(bits: u32, first: u32) -> u32 {
    if first < 32 {
        bits.wrapping_shl(first)
    } else {
        0
    }
}

impl Emitter<'_> {
    /// Refuses a bit-field that does not lie in its unit.
    pub(crate) fn fits_unit(&mut self, first: u32, count: u32) {
        if count == 0 || first.saturating_add(count) > 32 {
            self.refuse(ElaborateNo::Misfit);
        }
    }

    /// The bits of a bit-field out of its unit, extended by its sign or by zeros.
    pub(crate) fn extends(&mut self, first: u32, count: u32, is_signed: bool) {
        self.fits_unit(first, count);
        let above = 32u32.saturating_sub(first.saturating_add(count));
        self.with(above, Binary::ShiftLeft);
        let right = if is_signed {
            Binary::ShiftRight
        } else {
            Binary::ShiftRightUnsigned
        };
        self.with(32u32.saturating_sub(count), right);
    }

    /// The unit without the bits of a bit-field, and in their place the low bits of the word in the spare slot.
    pub(crate) fn replaces_bits(&mut self, first: u32, count: u32) {
        self.fits_unit(first, count);
        let bits = low_bits(count);
        self.with(!moved_up(bits, first), Binary::And);
        self.put(Op::SlotGet(self.spare()));
        self.with(bits, Binary::And);
        self.with(first, Binary::ShiftLeft);
        self.binary(Binary::Or);
    }
}
