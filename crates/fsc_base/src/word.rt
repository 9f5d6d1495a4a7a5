//! Fat words, the values of C here.

/// A value of 32 bits and the number of the block that it is based on.
#[derive(Clone, Copy, Debug, PartialEq, Eq)]
pub struct Word {
    pub value: u32,
    /// The number of a block, from 1, or 0 for no base.
    pub block: u32,
}

/// Whether a word of a block's shape keeps a base beside its value.
#[derive(Clone, Copy, Debug, PartialEq, Eq)]
pub enum WordKind {
    Fat,
    Narrow,
}

/// How many bytes an access touches: 1, 2 or 4.
#[derive(Clone, Copy, Debug, PartialEq, Eq)]
pub enum Width {
    One,
    Two,
    Four,
}
