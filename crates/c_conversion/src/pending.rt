//! Pending sizes: how many words wait while an expression is evaluated.

use crate::typed::Typed;
use check_refusal::{CheckRefused, CheckRule, broken};

/// The greatest pending size that an expression may have.
pub const MOST_PENDING: u32 = 200;

/// The expression, where its pending size is at most 200; else L09 at its place.
pub fn limited(e: Typed) -> Result<Typed, CheckRefused> {
    if e.pending <= MOST_PENDING {
        Ok(e)
    } else {
        Err(broken(CheckRule::L09, e.tree.place))
    }
}

/// That of two operands, of which the left one's value waits for the right one.
pub(crate) fn of_two(left: u32, right: u32) -> u32 {
    left.max(right.saturating_add(1))
}

/// That of a compound assignment: the address and the old value wait.
pub(crate) fn of_compound(target: u32, value: u32) -> u32 {
    target.saturating_add(1).max(value.saturating_add(2))
}

/// That of a call with so many arguments, the greatest of whose pending sizes, each with the arguments before it, is `arguments`.
pub(crate) fn of_call(called: u32, arguments: u32, count: u32) -> u32 {
    called.max(arguments).max(count.saturating_add(2))
}
