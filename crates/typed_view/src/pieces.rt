//! The pieces of static objects, whose values are constants (C90 6.4, 6.5.7).

use c_const::constant;
use c_tree::{Known, Piece, Symbol};
use c_types::TypeTable;
use fsc_base::{NoMemory, Width};
use sqlite_items::Items;
use start_blocks::{LinkPiece, LinkValue};
use std::alloc::Global;

/// How wide a scalar of so many bytes is.
fn width_of(size: u32) -> Width {
    match size {
        1 => Width::One,
        2 => Width::Two,
        _ => Width::Four,
    }
}

/// So many low bits of a number; all of them where there are 32 or more.
fn low_bits(value: u32, count: u32) -> u32 {
    if count < 32 {
        (u64::from(value) % (1u64 << count)) as u32
    } else {
        value
    }
}

/// An address, by what it is an address of.
fn address_value(symbol: Symbol, offset: u32) -> LinkValue {
    match symbol {
        Symbol::Named(symbol) => LinkValue::Symbol { symbol, offset },
        Symbol::Object(object) => LinkValue::Object { object, offset },
    }
}

/// The value of a piece of so many bytes. What is no constant counts as 0; the checker lets none stand there.
fn piece_value(size: u32, known: Option<Known>) -> LinkValue {
    match known {
        Some(Known::Number(n)) => LinkValue::Number(low_bits(n, size.saturating_mul(8))),
        Some(Known::Address { symbol, offset }) => address_value(symbol, offset),
        None => LinkValue::Number(0),
    }
}

/// A piece that is no bit-field.
fn whole_piece(types: &TypeTable, piece: &Piece) -> LinkPiece {
    LinkPiece {
        offset: piece.offset,
        width: width_of(piece.size),
        value: piece_value(piece.size, constant(types, &piece.value)),
    }
}

/// The bits of a bit-field, in their places.
fn bits_of(types: &TypeTable, piece: &Piece) -> u32 {
    let bits = match constant(types, &piece.value) {
        Some(Known::Number(n)) => low_bits(n, piece.count),
        _ => 0,
    };
    bits.checked_shl(piece.first).unwrap_or(0)
}

/// A unit with the bits of one more bit-field.
fn with_bits(unit: LinkValue, bits: u32) -> LinkValue {
    match unit {
        LinkValue::Number(unit) => LinkValue::Number(unit.wrapping_add(bits)),
        LinkValue::Symbol { .. } | LinkValue::Object { .. } => unit,
    }
}

/// What was read so far: the pieces, and the offset of the unit of the last one, where it is one of bit-fields.
#[derive(Drop)]
struct Pieces {
    items: Vec<LinkPiece>,
    unit: Option<u32>,
}

impl Pieces {
    /// One more piece that is no bit-field.
    fn push_whole(&mut self, piece: LinkPiece) -> Result<(), NoMemory> {
        self.unit = None;
        self.items.push(piece)?;
        Ok(())
    }

    /// One more bit-field: in the unit of the last piece, or in one of its own.
    fn push_bits(&mut self, offset: u32, bits: u32) -> Result<(), NoMemory> {
        if self.unit == Some(offset) {
            if let Some(last) = self.items.last_mut() {
                last.value = with_bits(last.value, bits);
            }
            return Ok(());
        }
        self.unit = Some(offset);
        self.items.push(LinkPiece {
            offset,
            width: Width::Four,
            value: LinkValue::Number(bits),
        })?;
        Ok(())
    }

    fn push(&mut self, types: &TypeTable, piece: &Piece) -> Result<(), NoMemory> {
        if piece.count == 0 {
            self.push_whole(whole_piece(types, piece))
        } else {
            self.push_bits(piece.offset, bits_of(types, piece))
        }
    }
}

/// The pieces of an object of a unit with these types, those of neighbouring bit-fields of one unit as one number. Refused only for
/// want of memory.
pub fn view_pieces(
    alloc: Global,
    types: &TypeTable,
    pieces: &[Piece],
) -> Result<Items<LinkPiece>, NoMemory> {
    let mut viewed = Pieces {
        items: Vec::new(alloc),
        unit: None,
    };
    'pieces: for piece in pieces {
        viewed.push(types, piece)?;
    }
    let Pieces { items, .. } = viewed;
    Ok(Items::from_vec(items))
}
