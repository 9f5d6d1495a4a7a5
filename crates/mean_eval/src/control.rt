//! Rows that choose where it goes on (C90 6.3.13 to 6.3.15, 6.6.4, 6.6.5).

use crate::value::{NEXT, gives};
use mean_state::{Action, Moment, Stop};

/// `&&`: where the left operand is 0, so is the value.
pub(crate) fn and_then(m: &mut Moment, right: u32) -> Result<Action, Stop> {
    let word = m.take()?;
    if word.value == 0 {
        gives(m, 0)
    } else {
        m.go(right);
        Ok(NEXT)
    }
}

/// `||`: where the left operand isn't 0, the value is 1.
pub(crate) fn or_else(m: &mut Moment, right: u32) -> Result<Action, Stop> {
    let word = m.take()?;
    if word.value == 0 {
        m.go(right);
        Ok(NEXT)
    } else {
        gives(m, 1)
    }
}

/// Goes on at a place where the word is 0.
pub(crate) fn branches(m: &mut Moment, to: u32) -> Result<Action, Stop> {
    let word = m.take()?;
    if word.value == 0 {
        m.go(to);
    }
    Ok(NEXT)
}

/// Goes on at a place where the word isn't 0.
pub(crate) fn tests(m: &mut Moment, to: u32) -> Result<Action, Stop> {
    let word = m.take()?;
    if word.value != 0 {
        m.go(to);
    }
    Ok(NEXT)
}

/// A label of a `switch`, whose word stays where it does not fit.
pub(crate) fn selects(m: &mut Moment, value: u32, to: u32) -> Result<Action, Stop> {
    let word = m.last()?;
    if word.value == value {
        m.take()?;
        m.go(to);
    }
    Ok(NEXT)
}
