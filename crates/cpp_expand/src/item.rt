//! Tokens on their way through an expansion.

use crate::hide_sets::HideId;
use fsc_base::Place;
use pp_token::PpKind;

/// A spelling.
#[derive(Clone, Copy, Debug)]
pub enum Text<'a> {
    /// That of a token which was there before.
    Lent(&'a [u8]),
    /// The text of this index among those that were made.
    Made(usize),
}

/// A token whose text and hide set stand elsewhere.
#[derive(Clone, Copy, Debug)]
pub struct Item<'a> {
    pub kind: PpKind,
    pub text: Text<'a>,
    pub place: Place,
    pub spaced: bool,
    pub hide: HideId,
}
