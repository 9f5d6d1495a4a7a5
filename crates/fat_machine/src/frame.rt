//! Activations of functions.

/// What an activation runs.
#[derive(Clone, Copy, Debug, PartialEq, Eq)]
pub(crate) enum Code {
    /// A call of `main` without arguments, and an exit with what it gives. It is no activation of a function.
    Start,
    /// The function with this index in the unit with that one.
    Function { unit: u32, function: u32 },
}

/// An activation: what it runs, the index of its next operation, where its slots and its words begin among all that are kept, the
/// number of its first block that is alive, how many are, and how many of those that its entry makes were made.
#[derive(Clone, Copy, Debug)]
pub(crate) struct Frame {
    pub code: Code,
    pub pc: u32,
    pub slots: usize,
    pub words: usize,
    pub first: u32,
    pub live: u32,
    pub made: u32,
}

impl Frame {
    /// What calls `main`.
    pub fn start() -> Frame {
        Frame {
            code: Code::Start,
            pc: 0,
            slots: 0,
            words: 0,
            first: 0,
            live: 0,
            made: 0,
        }
    }
}

/// A function of a program.
#[derive(Clone, Copy, Debug)]
pub(crate) struct Callee {
    pub unit: u32,
    pub function: u32,
}

/// A block that an activation has still to make.
#[derive(Clone, Copy, Debug)]
pub(crate) enum Making {
    /// That of its extra words.
    Extra,
    /// One of a size and a shape of the unit.
    Entry { size: u32, shape: u32 },
}
