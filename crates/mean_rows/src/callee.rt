//! Functions as a call sees them.

use c_tree::Conversion;

/// A function (C90 6.3.2.2, 6.7.1).
#[derive(Drop)]
pub struct Callee {
    /// The place where its entry begins.
    pub start: u32,
    /// How many words it takes, with the address for a struct that it gives before all others.
    pub parameters: u32,
    /// How many slots it has: for that address, its parameters and its other local objects, in this order.
    pub slots: u32,
    /// Whether the words beyond its parameters go into a block.
    pub is_variadic: bool,
    /// What the words of its parameters are converted by.
    pub conversions: Vec<Conversion>,
}
