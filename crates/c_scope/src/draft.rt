//! Objects that may be made.

use c_tree::Piece;
use c_types::TypeId;
use fsc_base::{Bytes, Name, NoMemory, Place};
use sqlite_items::Items;
use std::alloc::Global;

/// What a draft is the draft of.
#[derive(Drop)]
pub(crate) enum DraftOf {
    /// A string literal, by its bytes without the closing zero.
    Text(Bytes),
    /// A static object of a block.
    Static(Name),
    /// The object of a symbol.
    Linked(u32),
}

/// An object that may be made.
#[derive(Drop)]
pub(crate) struct Draft {
    pub of: DraftOf,
    /// Its type; a symbol's object has the symbol's.
    pub kind: TypeId,
    /// Where its first token stands.
    pub place: Place,
    /// What its initialiser stores.
    pub pieces: Items<Piece>,
    /// Whether it is no string that fills an array of characters.
    pub is_kept: bool,
}

/// Which of the objects that a unit may make are made, in order of their first tokens.
#[derive(Drop)]
pub struct Kept {
    are_kept: Vec<bool>,
    are_all: bool,
}

impl Kept {
    /// Those of a unit that is not known yet: all. It takes no memory.
    pub fn all(alloc: Global) -> Kept {
        Kept {
            are_kept: Vec::new(alloc),
            are_all: true,
        }
    }

    /// The next one is made or isn't.
    pub(crate) fn add(&mut self, is_kept: bool) -> Result<(), NoMemory> {
        self.are_kept.push(is_kept)?;
        self.are_all = self.are_all && is_kept;
        Ok(())
    }

    /// Whether all are made.
    pub fn are_all(&self) -> bool {
        self.are_all
    }

    /// Whether the one with that number is made; one that it does not know is.
    pub(crate) fn is_kept(&self, candidate: usize) -> bool {
        match self.are_kept.get(candidate) {
            Some(is_kept) => *is_kept,
            None => true,
        }
    }
}
