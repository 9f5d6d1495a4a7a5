//! What static objects hold at the start of a run (C90 6.5.7).

use c_const::constant;
use c_tree::{Known, Piece, Symbol, TypedObject};
use c_types::TypeTable;
use elab_setting::{ElaborateNo, TypeShapes, width_of};
use fat_code::{FatObject, FatPiece, FatValue};
use fsc_base::Width;
use sqlite_items::Items;
use std::alloc::Global;

/// The bit-fields of a unit so far.
#[derive(Clone, Copy)]
struct UnitBits {
    offset: u32,
    bits: u32,
}

/// The pieces of an object so far; the bit-fields of one unit become one number.
#[derive(Drop)]
struct ObjectData {
    pieces: Items<FatPiece>,
    unit: Option<UnitBits>,
}

/// The low bits of a number, so many.
fn low_bits(number: u32, count: u32) -> u32 {
    if count < 32 {
        number % (1u32 << count)
    } else {
        number
    }
}

/// Bits moved up to that bit; None where they do not lie in a unit of 32.
fn moved_up(bits: u32, first: u32, count: u32) -> Option<u32> {
    if first < 32 && first.saturating_add(count) <= 32 {
        Some(bits.wrapping_shl(first))
    } else {
        None
    }
}

/// The bits of a bit-field with that value, in their places; None where it is no number, or lies in no unit.
fn bits_of(piece: &Piece, value: Known) -> Option<u32> {
    match value {
        Known::Number(number) => {
            moved_up(low_bits(number, piece.count), piece.first, piece.count)
        }
        Known::Address { .. } => None,
    }
}

/// An address.
fn address_value(symbol: Symbol, offset: u32) -> FatValue {
    match symbol {
        Symbol::Named(symbol) => FatValue::Symbol { symbol, offset },
        Symbol::Object(object) => FatValue::Object { object, offset },
    }
}

/// The value of a piece of so many bytes; None of an address that does not fill it.
fn value_of(width: Width, value: Known) -> Option<FatValue> {
    match (value, width) {
        (Known::Number(number), Width::One) => Some(FatValue::Number(low_bits(number, 8))),
        (Known::Number(number), Width::Two) => Some(FatValue::Number(low_bits(number, 16))),
        (Known::Number(number), Width::Four) => Some(FatValue::Number(number)),
        (Known::Address { symbol, offset }, Width::Four) => Some(address_value(symbol, offset)),
        (Known::Address { .. }, Width::One | Width::Two) => None,
    }
}

/// A piece that is no bit-field.
fn whole_piece(piece: &Piece, value: Known) -> Result<FatPiece, ElaborateNo> {
    let width = width_of(piece.size);
    match value_of(width, value) {
        Some(value) => Ok(FatPiece {
            offset: piece.offset,
            width,
            value,
        }),
        None => Err(ElaborateNo::Misfit),
    }
}

impl ObjectData {
    /// Puts the number of the last unit of bit-fields, if one is begun.
    fn end_unit(&mut self) -> Result<(), ElaborateNo> {
        if let Some(unit) = self.unit {
            self.unit = None;
            self.pieces.push(FatPiece {
                offset: unit.offset,
                width: Width::Four,
                value: FatValue::Number(unit.bits),
            })?;
        }
        Ok(())
    }

    /// The bits that the last unit has where it lies there.
    fn bits_at(&self, offset: u32) -> Option<u32> {
        match self.unit {
            Some(unit) => {
                if unit.offset == offset {
                    Some(unit.bits)
                } else {
                    None
                }
            }
            None => None,
        }
    }

    /// A bit-field with these bits.
    fn put_bits(&mut self, offset: u32, bits: u32) -> Result<(), ElaborateNo> {
        match self.bits_at(offset) {
            Some(before) => {
                self.unit = Some(UnitBits {
                    offset,
                    bits: before | bits,
                });
            }
            None => {
                self.end_unit()?;
                self.unit = Some(UnitBits { offset, bits });
            }
        }
        Ok(())
    }

    /// A bit-field with that value.
    fn put_bit_field(&mut self, piece: &Piece, value: Known) -> Result<(), ElaborateNo> {
        match bits_of(piece, value) {
            Some(bits) => self.put_bits(piece.offset, bits),
            None => Err(ElaborateNo::Misfit),
        }
    }

    /// A piece that is no bit-field.
    fn put_whole(&mut self, piece: &Piece, value: Known) -> Result<(), ElaborateNo> {
        let piece = whole_piece(piece, value)?;
        self.end_unit()?;
        self.pieces.push(piece)?;
        Ok(())
    }

    /// A piece. Its value is a constant.
    fn put(&mut self, types: &TypeTable, piece: &Piece) -> Result<(), ElaborateNo> {
        match constant(types, &piece.value) {
            Some(value) => {
                if piece.count == 0 {
                    self.put_whole(piece, value)
                } else {
                    self.put_bit_field(piece, value)
                }
            }
            None => Err(ElaborateNo::Misfit),
        }
    }
}

/// The pieces of an object.
fn pieces_of(
    alloc: Global,
    types: &TypeTable,
    pieces: &[Piece],
) -> Result<Items<FatPiece>, ElaborateNo> {
    let mut data = ObjectData {
        pieces: Items::new(alloc),
        unit: None,
    };
    for piece in pieces {
        data.put(types, piece)?;
    }
    data.end_unit()?;
    let ObjectData { pieces, .. } = data;
    Ok(pieces)
}

/// A static object.
fn object_of(
    alloc: Global,
    types: &TypeTable,
    shapes: &TypeShapes,
    object: &TypedObject,
) -> Result<FatObject, ElaborateNo> {
    match shapes.of_types.get(object.kind as usize) {
        Some(shape) => Ok(FatObject {
            size: object.size,
            shape: *shape,
            pieces: pieces_of(alloc, types, object.pieces.as_slice())?,
        }),
        None => Err(ElaborateNo::Misfit),
    }
}

/// The static objects of a unit.
pub(crate) fn objects_of(
    alloc: Global,
    types: &TypeTable,
    shapes: &TypeShapes,
    objects: &[TypedObject],
) -> Result<Items<FatObject>, ElaborateNo> {
    let mut made = Items::new(alloc);
    for object in objects {
        made.push(object_of(alloc, types, shapes, object)?)?;
    }
    Ok(made)
}
