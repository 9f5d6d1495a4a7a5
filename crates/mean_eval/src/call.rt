//! Calls and returns (C90 6.3.2.2, 6.6.6.4, 6.7.1).

use crate::assignment::copied;
use crate::value::NEXT;
use fsc_base::{End, Width, Word};
use mean_rows::Callee;
use mean_state::{Action, Moment, Stop};

/// How many words a block of so many bytes has.
pub(crate) fn words_of(size: u32) -> u64 {
    u64::from(size).div_ceil(4)
}

/// Puts the address of a struct call's entry block below its arguments.
pub(crate) fn receives(m: &mut Moment, entry: u32, below: u32) -> Result<Action, Stop> {
    let at = m.entry_address(entry)?;
    m.give_below(below, at)?;
    Ok(NEXT)
}

/// The function that a block is, if it is one.
fn function_of(callees: &[Option<Callee>], block: u32) -> Option<&Callee> {
    let index = (block as usize).checked_sub(1)?;
    callees.get(index)?.as_ref()
}

/// The function whose address a word is.
fn callee_of<'a>(m: &Moment, callees: &'a [Option<Callee>], f: Word) -> Result<&'a Callee, Stop> {
    let offset = m.offset(f);
    let found = if offset == 0 {
        function_of(callees, f.block)
    } else {
        None
    };
    match found {
        Some(callee) => Ok(callee),
        None => Err(Stop::Ended(End::Call {
            block: f.block,
            offset,
        })),
    }
}

/// The word below the arguments is called. Setting up the activation costs the number of its parameters besides.
pub(crate) fn calls(
    m: &mut Moment,
    callees: &[Option<Callee>],
    arguments: u32,
    back: u32,
) -> Result<Action, Stop> {
    let f = m.below(arguments)?;
    let callee = callee_of(m, callees, f)?;
    m.enter(callee, arguments, back)?;
    Ok(Action::Steps(u64::from(callee.parameters)))
}

/// Making a block costs its words besides.
pub(crate) fn makes_extra(m: &mut Moment) -> Result<Action, Stop> {
    let words = m.make_extra()?;
    Ok(Action::Steps(u64::from(words)))
}

pub(crate) fn makes(m: &mut Moment, size: u32) -> Result<Action, Stop> {
    m.make_entry(size)?;
    Ok(Action::Steps(words_of(size)))
}

pub(crate) fn fills(m: &mut Moment, slot: u32, entry: u32, width: Width) -> Result<Action, Stop> {
    let word = m.slot(slot)?;
    let at = m.entry_address(entry)?;
    m.write(at, width, word)?;
    Ok(NEXT)
}

pub(crate) fn fills_record(
    m: &mut Moment,
    slot: u32,
    entry: u32,
    size: u32,
) -> Result<Action, Stop> {
    let from = m.slot(slot)?;
    let to = m.entry_address(entry)?;
    copied(m, to, from, size)
}

/// Slot 0 has the address that the caller wants the value at. The function gives it.
pub(crate) fn copies_out(m: &mut Moment, size: u32) -> Result<Action, Stop> {
    let from = m.take()?;
    let to = m.slot(0)?;
    m.give(to)?;
    copied(m, to, from, size)
}

/// The entry blocks end, a step each, in which the row stays; then the activation ends.
pub(crate) fn returns(m: &mut Moment, own: u32) -> Result<Action, Stop> {
    if m.end_block()? {
        m.go(own);
        return Ok(NEXT);
    }
    let word = m.take()?;
    m.leave(word)?;
    Ok(NEXT)
}
