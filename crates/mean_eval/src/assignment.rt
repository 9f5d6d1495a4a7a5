//! Compound assignment, `++` and `--` (C90 6.3.2.4, 6.3.3.1, 6.3.16.2), and assignment of structs and unions.

use crate::access::{store, store_slot, stored_as};
use crate::value::{operated, plain, pointer_minus, pointer_plus};
use c_tree::{Access, CompoundOp};
use fsc_base::Word;
use mean_rows::Spot;
use mean_state::{Action, Moment, Stop};

/// What the operator gives.
fn combined(op: CompoundOp, left: Word, right: Word) -> Result<Word, Stop> {
    match op {
        CompoundOp::Plain(op) => operated(op, left, right),
        CompoundOp::PointerPlus(size) => pointer_plus(size, left, right),
        CompoundOp::PointerMinus(size) => pointer_minus(size, left, right),
    }
}

/// It is stored. The value is what is named, or else that of the object now.
fn combine(
    m: &mut Moment,
    spot: Spot,
    access: Access,
    word: Word,
    gives: Option<Word>,
) -> Result<Action, Stop> {
    let stored = stored_as(access, word)?;
    match spot {
        Spot::InSlot(slot) => store_slot(m, slot, stored, gives),
        Spot::InMemory => store(m, access, stored, gives),
    }
}

pub(crate) fn combines(
    m: &mut Moment,
    spot: Spot,
    op: CompoundOp,
    access: Access,
) -> Result<Action, Stop> {
    let right = m.take()?;
    let left = m.take()?;
    let word = combined(op, left, right)?;
    combine(m, spot, access, word, None)
}

/// `++l` gives the new value, `l++` the old one.
pub(crate) fn increments(
    m: &mut Moment,
    spot: Spot,
    op: CompoundOp,
    is_prefix: bool,
    access: Access,
) -> Result<Action, Stop> {
    let left = m.take()?;
    let word = combined(op, left, plain(1))?;
    let gives = if is_prefix { None } else { Some(left) };
    combine(m, spot, access, word, gives)
}

/// A copy costs its bytes besides.
pub(crate) fn copied(m: &mut Moment, to: Word, from: Word, size: u32) -> Result<Action, Stop> {
    m.copy(to, from, size)?;
    Ok(Action::Steps(u64::from(size)))
}

/// The address that was copied to stays.
pub(crate) fn copies(m: &mut Moment, size: u32) -> Result<Action, Stop> {
    let from = m.take()?;
    let to = m.last()?;
    copied(m, to, from, size)
}
