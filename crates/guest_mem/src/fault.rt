//! Why memory refuses an access.

/// Why a load or a fetch is refused.
#[derive(Clone, Copy, Debug, PartialEq, Eq)]
pub enum Fault {
    /// The address is no multiple of the width.
    Misaligned,
    /// The address is a multiple of the width, and the bytes do not all lie in one region that gives the right.
    Outside,
}

/// Why a store is refused.
#[derive(Clone, Copy, Debug, PartialEq, Eq)]
pub enum StoreNo {
    /// The address is no multiple of the width.
    Misaligned,
    /// The address is a multiple of the width, and the bytes do not all lie in one region that may be written.
    Outside,
    /// No memory was left for the bytes to be kept.
    NoMemory,
}
