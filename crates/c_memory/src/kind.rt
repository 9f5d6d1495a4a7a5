//! Kinds of blocks.

/// What a block is, and for an object what made it.
#[derive(Clone, Copy, Debug, PartialEq, Eq)]
pub enum BlockKind {
    /// A function. It has no bytes.
    Function,
    /// An object that is there from the start of the run, a string literal among them.
    Static,
    /// An object that the entry of a function made.
    Entry,
    /// An object that the program asked for.
    Alloc,
}
