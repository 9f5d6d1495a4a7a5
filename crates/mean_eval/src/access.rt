//! Rows that read and store scalars (C90 6.2.2.1, 6.3.16, 6.5.2.1).

use crate::value::NEXT;
use c_ops::{field, narrowed, replaced};
use c_tree::Access;
use fsc_base::{Width, Word};
use mean_rows::Spot;
use mean_state::{Action, Moment, Pending, Stop};

/// What a bit-field has of its unit. Bits that lie in no unit fit no tree.
pub(crate) fn bits(first: u32, count: u32, is_signed: bool, unit: Word) -> Result<Word, Stop> {
    if 0 < count && count <= 32 && first <= 32 - count {
        Ok(field(first, count, is_signed, unit))
    } else {
        Err(Stop::Misfit)
    }
}

/// A unit with the bits of a word in the place of a bit-field.
fn with_bits(first: u32, count: u32, unit: Word, word: Word) -> Result<Word, Stop> {
    if 0 < count && count <= 32 && first <= 32 - count {
        Ok(replaced(first, count, unit, word))
    } else {
        Err(Stop::Misfit)
    }
}

/// The value of an object of this kind: a scalar is extended to 4 bytes, a bit-field is taken from its unit.
fn value_of(access: Access, word: Word) -> Result<Word, Stop> {
    match access {
        Access::Scalar { width, is_signed } => Ok(narrowed(width, is_signed, word)),
        Access::Bits {
            first,
            count,
            is_signed,
        } => bits(first, count, is_signed, word),
    }
}

/// How many bytes are read for it.
fn width_of(access: Access) -> Width {
    match access {
        Access::Scalar { width, .. } => width,
        Access::Bits { .. } => Width::Four,
    }
}

/// A word as an object of this kind holds it.
pub(crate) fn stored_as(access: Access, word: Word) -> Result<Word, Stop> {
    match access {
        Access::Scalar { width, is_signed } => Ok(narrowed(width, is_signed, word)),
        Access::Bits {
            count,
            is_signed,
            ..
        } => bits(0, count, is_signed, word),
    }
}

/// Reads a scalar at an address, and gives its value.
fn read(m: &mut Moment, access: Access, at: Word) -> Result<Action, Stop> {
    let found = m.read(at, width_of(access))?;
    let value = value_of(access, found)?;
    m.give(value)?;
    Ok(NEXT)
}

fn read_slot(m: &mut Moment, slot: u32) -> Result<Action, Stop> {
    let word = m.slot(slot)?;
    m.give(word)?;
    Ok(NEXT)
}

pub(crate) fn reads(m: &mut Moment, spot: Spot, access: Access) -> Result<Action, Stop> {
    match spot {
        Spot::InSlot(slot) => read_slot(m, slot),
        Spot::InMemory => {
            let at = m.take()?;
            read(m, access, at)
        }
    }
}

/// The address stays for the store that follows.
pub(crate) fn peeks(m: &mut Moment, spot: Spot, access: Access) -> Result<Action, Stop> {
    match spot {
        Spot::InSlot(slot) => read_slot(m, slot),
        Spot::InMemory => {
            let at = m.last()?;
            read(m, access, at)
        }
    }
}

/// A word in a slot.
pub(crate) fn store_slot(
    m: &mut Moment,
    slot: u32,
    word: Word,
    gives: Option<Word>,
) -> Result<Action, Stop> {
    m.set_slot(slot, word)?;
    m.give(gives.unwrap_or(word))?;
    Ok(NEXT)
}

/// The first step of a store to a bit-field: its unit is read. The next row writes it with its bits replaced.
pub(crate) fn read_unit(m: &mut Moment, at: Word, pending: Pending) -> Result<Action, Stop> {
    let unit = m.read(at, Width::Four)?;
    m.give(at)?;
    m.give(unit)?;
    m.keep(pending);
    Ok(NEXT)
}

/// The address of a store is among the words. It gives what is named, or else the value that the object has now.
pub(crate) fn store(
    m: &mut Moment,
    access: Access,
    word: Word,
    gives: Option<Word>,
) -> Result<Action, Stop> {
    let at = m.take()?;
    match access {
        Access::Scalar { width, .. } => {
            m.write(at, width, word)?;
            m.give(gives.unwrap_or(word))?;
            Ok(NEXT)
        }
        Access::Bits {
            count,
            is_signed,
            ..
        } => {
            let value = bits(0, count, is_signed, word)?;
            let gives = Some(gives.unwrap_or(value));
            read_unit(m, at, Pending { word, gives })
        }
    }
}

pub(crate) fn stores(m: &mut Moment, spot: Spot, access: Access) -> Result<Action, Stop> {
    let word = m.take()?;
    match spot {
        Spot::InSlot(slot) => store_slot(m, slot, word, None),
        Spot::InMemory => store(m, access, word, None),
    }
}

/// The second step of a store to a bit-field.
pub(crate) fn writes(m: &mut Moment, first: u32, count: u32) -> Result<Action, Stop> {
    let unit = m.take()?;
    let at = m.take()?;
    let pending = m.pending();
    let unit = with_bits(first, count, unit, pending.word)?;
    m.write(at, Width::Four, unit)?;
    if let Some(word) = pending.gives {
        m.give(word)?;
    }
    Ok(NEXT)
}
