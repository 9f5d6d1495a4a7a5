//! Bounds of loops over work lists.

/// A list in memory never has so many items, so a loop that takes one of its items a turn has fewer turns.
pub(crate) const TURNS: u64 = 0xffff_ffff_ffff_ffff;
