//! Rows that compute: they change words alone (C90 6.3).

use c_ops::{Operator, UnaryOperator, narrowed, scaled};
use c_tree::Side;
use fsc_base::{End, Width, Word};
use mean_state::{Action, Moment, Stop};

/// A step that costs nothing besides.
pub(crate) const NEXT: Action = Action::Steps(0);

/// A word without a base.
pub(crate) fn plain(value: u32) -> Word {
    Word { value, block: 0 }
}

/// What an operator gives; a division by zero ends the run.
pub(crate) fn operated(op: Operator, left: Word, right: Word) -> Result<Word, Stop> {
    match op.apply(left, right) {
        Some(word) => Ok(word),
        None => Err(Stop::Ended(End::Divide)),
    }
}

/// The sum of two words.
pub(crate) fn sum(left: Word, right: Word) -> Result<Word, Stop> {
    operated(Operator::Add, left, right)
}

/// A pointer plus an integer, which is multiplied by the size of an element first (C90 6.3.6).
pub(crate) fn pointer_plus(size: u32, pointer: Word, index: Word) -> Result<Word, Stop> {
    sum(pointer, scaled(size, index))
}

/// A pointer minus an integer.
pub(crate) fn pointer_minus(size: u32, pointer: Word, index: Word) -> Result<Word, Stop> {
    operated(Operator::Subtract, pointer, scaled(size, index))
}

/// The signed difference of two pointers, divided by the size of an element.
fn pointer_difference(size: u32, left: Word, right: Word) -> Result<Word, Stop> {
    let bytes = operated(Operator::Subtract, left, right)?;
    operated(Operator::Divide, bytes, plain(size))
}

fn give(m: &mut Moment, word: Word) -> Result<Action, Stop> {
    m.give(word)?;
    Ok(NEXT)
}

pub(crate) fn gives(m: &mut Moment, value: u32) -> Result<Action, Stop> {
    give(m, plain(value))
}

pub(crate) fn names(m: &mut Moment, block: u32) -> Result<Action, Stop> {
    let at = m.address(block)?;
    give(m, at)
}

pub(crate) fn locates(m: &mut Moment, entry: u32) -> Result<Action, Stop> {
    let at = m.entry_address(entry)?;
    give(m, at)
}

/// For every row that changes nothing but the place.
pub(crate) fn stays() -> Result<Action, Stop> {
    Ok(NEXT)
}

pub(crate) fn moves(m: &mut Moment, offset: u32) -> Result<Action, Stop> {
    let at = m.take()?;
    let moved = sum(at, plain(offset))?;
    give(m, moved)
}

pub(crate) fn indexes(m: &mut Moment, pointer: Side, size: u32) -> Result<Action, Stop> {
    let right = m.take()?;
    let left = m.take()?;
    let at = match pointer {
        Side::Left => pointer_plus(size, left, right)?,
        Side::Right => pointer_plus(size, right, left)?,
    };
    give(m, at)
}

pub(crate) fn lowers(m: &mut Moment, size: u32) -> Result<Action, Stop> {
    let index = m.take()?;
    let pointer = m.take()?;
    let at = pointer_minus(size, pointer, index)?;
    give(m, at)
}

pub(crate) fn spans(m: &mut Moment, size: u32) -> Result<Action, Stop> {
    let right = m.take()?;
    let left = m.take()?;
    let count = pointer_difference(size, left, right)?;
    give(m, count)
}

pub(crate) fn narrows(m: &mut Moment, width: Width, is_signed: bool) -> Result<Action, Stop> {
    let word = m.take()?;
    give(m, narrowed(width, is_signed, word))
}

pub(crate) fn turns(m: &mut Moment, op: UnaryOperator) -> Result<Action, Stop> {
    let word = m.take()?;
    give(m, op.apply(word))
}

pub(crate) fn operates(m: &mut Moment, op: Operator) -> Result<Action, Stop> {
    let right = m.take()?;
    let left = m.take()?;
    let word = operated(op, left, right)?;
    give(m, word)
}

pub(crate) fn drops(m: &mut Moment) -> Result<Action, Stop> {
    m.take()?;
    Ok(NEXT)
}

pub(crate) fn truth(m: &mut Moment) -> Result<Action, Stop> {
    let word = m.take()?;
    gives(m, u32::from(word.value != 0))
}
