//! The primitives of the library.

use crate::assignment::copied;
use crate::call::words_of;
use crate::value::{NEXT, gives, plain};
use c_memory::BlockKind;
use c_ops::Primitive;
use fsc_base::{End, Word};
use mean_state::{Action, Moment, Stop};

/// The low 8 bits of a number.
fn low_byte(value: u32) -> u8 {
    (value % 256) as u8
}

/// The low 8 bits are written, and given.
fn puts(m: &mut Moment) -> Result<Action, Stop> {
    let c = m.take()?;
    let byte = low_byte(c.value);
    m.give(plain(u32::from(byte)))?;
    Ok(Action::Puts(byte))
}

/// Leaves the byte that was taken from the input; at its end, -1.
pub fn taken(m: &mut Moment, byte: Option<u8>) -> Result<(), Stop> {
    m.give(plain(match byte {
        Some(byte) => u32::from(byte),
        None => u32::MAX,
    }))
}

/// A block of so many bytes is made, at the cost of its words besides; one that does not fit is null.
fn allocates(m: &mut Moment) -> Result<Action, Stop> {
    let size = m.take()?.value;
    match m.allocate(size)? {
        Some(at) => {
            m.give(at)?;
            Ok(Action::Steps(words_of(size)))
        }
        None => gives(m, 0),
    }
}

/// A block that was allocated and whose first byte the word names is asked for; else the run ends by an access without a width.
fn is_allocated(m: &Moment, at: Word) -> Result<(), Stop> {
    let offset = m.offset(at);
    match (m.kind(at.block), offset) {
        (Some(BlockKind::Alloc), 0) => Ok(()),
        _ => Err(Stop::Ended(End::Access {
            block: at.block,
            offset,
            width: 0,
        })),
    }
}

/// Of null nothing happens.
fn releases(m: &mut Moment) -> Result<Action, Stop> {
    let at = m.take()?;
    if at.value != 0 {
        is_allocated(m, at)?;
        m.kill(at.block)?;
    }
    gives(m, 0)
}

fn measures(m: &mut Moment) -> Result<Action, Stop> {
    let at = m.take()?;
    is_allocated(m, at)?;
    let size = m.size(at.block)?;
    gives(m, size)
}

fn copies(m: &mut Moment) -> Result<Action, Stop> {
    let size = m.take()?.value;
    let from = m.take()?;
    let to = m.take()?;
    m.give(plain(0))?;
    copied(m, to, from, size)
}

fn exits(m: &mut Moment) -> Result<Action, Stop> {
    let status = m.take()?;
    Err(Stop::Ended(End::Exit(low_byte(status.value))))
}

fn extra(m: &mut Moment) -> Result<Action, Stop> {
    let at = m.extra_address()?;
    m.give(at)?;
    Ok(NEXT)
}

/// One row a primitive; its last argument is found first.
pub(crate) fn performs(m: &mut Moment, primitive: Primitive) -> Result<Action, Stop> {
    match primitive {
        Primitive::Put => puts(m),
        Primitive::Get => Ok(Action::Takes),
        Primitive::Alloc => allocates(m),
        Primitive::Release => releases(m),
        Primitive::Size => measures(m),
        Primitive::Copy => copies(m),
        Primitive::Exit => exits(m),
        Primitive::Abort => Err(Stop::Ended(End::Abort)),
        Primitive::Extra => extra(m),
    }
}
