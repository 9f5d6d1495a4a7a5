//! What a unit says of a name with linkage (C90 6.1.2.2, 6.7).

/// Whether a name means the same in all units of a program, or in its own unit alone.
#[derive(Clone, Copy, Debug, PartialEq, Eq)]
pub enum Linkage {
    External,
    Internal,
}

/// What defines a symbol in its unit.
#[derive(Clone, Copy, Debug, PartialEq, Eq)]
pub enum Definition {
    /// Nothing: another unit has to.
    Missing,
    /// The function with this index among the unit's functions.
    Function(u32),
    /// The object with this index among the unit's objects.
    Object(u32),
}
