//! Values of constant expressions.

use crate::expression::Symbol;

/// The value of a constant expression (C90 6.4): a number, or an address and so many bytes behind it.
#[derive(Clone, Copy, Debug, PartialEq, Eq)]
pub enum Known {
    /// An integer, or a pointer that was made of one.
    Number(u32),
    Address { symbol: Symbol, offset: u32 },
}
