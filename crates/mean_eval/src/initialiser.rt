//! Initialisers of automatic objects (C90 6.5.7).

use crate::access::read_unit;
use crate::assignment::copied;
use crate::call::words_of;
use crate::value::{NEXT, plain, sum};
use c_tree::Access;
use fsc_base::Word;
use mean_state::{Action, Moment, Pending, Stop};

/// A scalar that is a slot.
pub(crate) fn sets(m: &mut Moment, slot: u32) -> Result<Action, Stop> {
    let word = m.take()?;
    m.set_slot(slot, word)?;
    Ok(NEXT)
}

/// Clearing an aggregate costs its words besides.
pub(crate) fn clears(m: &mut Moment, entry: u32, size: u32) -> Result<Action, Stop> {
    let at = m.entry_address(entry)?;
    m.clear(at, size)?;
    Ok(Action::Steps(words_of(size)))
}

/// An offset in an entry block.
fn place_in(m: &Moment, entry: u32, offset: u32) -> Result<Word, Stop> {
    let at = m.entry_address(entry)?;
    sum(at, plain(offset))
}

pub(crate) fn initialises(
    m: &mut Moment,
    entry: u32,
    offset: u32,
    access: Access,
) -> Result<Action, Stop> {
    let word = m.take()?;
    let at = place_in(m, entry, offset)?;
    match access {
        Access::Scalar { width, .. } => {
            m.write(at, width, word)?;
            Ok(NEXT)
        }
        Access::Bits { .. } => read_unit(m, at, Pending { word, gives: None }),
    }
}

pub(crate) fn copies_in(
    m: &mut Moment,
    entry: u32,
    offset: u32,
    size: u32,
) -> Result<Action, Stop> {
    let from = m.take()?;
    let to = place_in(m, entry, offset)?;
    copied(m, to, from, size)
}
