//! The operations of initialisers (C90 6.5.7).

use crate::expressions::expression;
use crate::lengths::with_expression;
use c_tree::{Access, Piece};
use c_types::TypeId;
use elab_code::Emitter;
use elab_setting::{Locals, copied_length, initial_length, width_of};

/// How a piece is stored.
fn access_of(piece: &Piece) -> Access {
    if piece.count == 0 {
        Access::Scalar {
            width: width_of(piece.size),
            is_signed: false,
        }
    } else {
        Access::Bits {
            first: piece.first,
            count: piece.count,
            is_signed: false,
        }
    }
}

/// The initialiser of a slot: each value is put into it.
pub(crate) fn pieces_in_slot(out: &mut Emitter, slot: u32, pieces: &[Piece]) {
    for piece in pieces {
        expression(out, &piece.value, 0);
        out.sets(slot);
    }
}

/// The initialiser of a local object of that type in an entry block: for each piece its value, and then its store.
pub(crate) fn pieces_in_entry(out: &mut Emitter, entry: u32, kind: TypeId, pieces: &[Piece]) {
    for piece in pieces {
        expression(out, &piece.value, 0);
        stores_piece(out, entry, kind, piece);
    }
}

/// The store of a piece whose value was given.
fn stores_piece(out: &mut Emitter, entry: u32, kind: TypeId, piece: &Piece) {
    if piece.is_record {
        out.copies_in(entry, piece.offset, piece.size);
    } else {
        out.initialises(entry, kind, piece.offset, access_of(piece));
    }
}

/// `before` and the operations of the initialiser of a slot.
pub(crate) fn with_slot_pieces(locals: &Locals, before: u32, pieces: &[Piece]) -> u32 {
    let mut length = before;
    for piece in pieces {
        length = with_expression(locals, length.saturating_add(2), &piece.value);
    }
    length
}

/// `before` and those of the initialiser of an entry block.
pub(crate) fn with_entry_pieces(locals: &Locals, before: u32, pieces: &[Piece]) -> u32 {
    let mut length = before;
    for piece in pieces {
        length = with_expression(
            locals,
            length.saturating_add(store_length(piece)),
            &piece.value,
        );
    }
    length
}

/// The operations of the store of a piece.
fn store_length(piece: &Piece) -> u32 {
    if piece.is_record {
        copied_length(piece.offset)
    } else {
        initial_length(piece.offset, access_of(piece))
    }
}
