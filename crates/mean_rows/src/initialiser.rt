//! Rows of initialisers (C90 6.5.7). They run whenever their declaration is reached: an aggregate is cleared, then each piece is
//! stored.

use crate::locals::Place;
use crate::refusal::RowsNo;
use crate::row::{Act, Spot};
use crate::translator::Translator;
use c_tree::{Access, Piece};
use fsc_base::Width;

/// How wide a scalar of so many bytes is.
pub(crate) fn width_of(size: u32) -> Width {
    match size {
        1 => Width::One,
        2 => Width::Two,
        _ => Width::Four,
    }
}

/// How a scalar piece is stored.
fn piece_access(piece: &Piece) -> Access {
    if piece.count == 0 {
        Access::Scalar {
            width: width_of(piece.size),
            is_signed: false,
        }
    } else {
        Access::Bits {
            first: piece.first,
            count: piece.count,
            is_signed: false,
        }
    }
}

impl Translator<'_> {
    /// The initialiser of a local object. Of an aggregate, its size is given.
    pub(crate) fn initialise(
        &mut self,
        local: u32,
        aggregate: Option<u32>,
        pieces: &[Piece],
        next: u32,
    ) -> Result<u32, RowsNo> {
        match self.locals.place(local)? {
            Place::AtSlot(slot) => self.pieces_in_slot(slot, pieces, next),
            Place::AtEntry(entry) => {
                let first = self.pieces_in_entry(entry, pieces, next)?;
                self.cleared(entry, aggregate, first)
            }
        }
    }

    /// An aggregate is cleared before its pieces are stored.
    fn cleared(&mut self, entry: u32, aggregate: Option<u32>, next: u32) -> Result<u32, RowsNo> {
        match aggregate {
            Some(size) => self.push(Act::Clears { entry, size }, next),
            None => Ok(next),
        }
    }

    /// The pieces of a local object that is a slot.
    fn pieces_in_slot(&mut self, slot: u32, pieces: &[Piece], next: u32) -> Result<u32, RowsNo> {
        let mut first = next;
        'pieces: for i in (0..pieces.len()).rev() {
            first = self.piece_in_slot(slot, &pieces[i], first)?;
        }
        Ok(first)
    }

    fn piece_in_slot(&mut self, slot: u32, piece: &Piece, next: u32) -> Result<u32, RowsNo> {
        let sets = self.push(Act::Sets(slot), next)?;
        self.expression(&piece.value, sets)
    }

    /// The pieces of a local object in memory.
    fn pieces_in_entry(&mut self, entry: u32, pieces: &[Piece], next: u32) -> Result<u32, RowsNo> {
        let mut first = next;
        'pieces: for i in (0..pieces.len()).rev() {
            first = self.piece_in_entry(entry, &pieces[i], first)?;
        }
        Ok(first)
    }

    fn piece_in_entry(&mut self, entry: u32, piece: &Piece, next: u32) -> Result<u32, RowsNo> {
        let own = self.piece(entry, piece, next)?;
        self.expression(&piece.value, own)
    }

    /// The store of a piece.
    fn piece(&mut self, entry: u32, piece: &Piece, next: u32) -> Result<u32, RowsNo> {
        let offset = piece.offset;
        if piece.is_record {
            return self.push(
                Act::CopiesIn {
                    entry,
                    offset,
                    size: piece.size,
                },
                next,
            );
        }
        let access = piece_access(piece);
        let behind = self.behind_store(Spot::InMemory, access, next)?;
        self.push(
            Act::Initialises {
                entry,
                offset,
                access,
            },
            behind,
        )
    }
}
