//! Rights on memory.

ghost use Rattle.std.specs.Prelude.{◌≡◌};
ghost use Rattle.guest_mem.specs.Rights.{flag_of};

/// What an access asks to be allowed.
#[derive(Clone, Copy, Debug, PartialEq, Eq)]
pub enum Right {
    /// To fetch an instruction.
    Execute,
    /// To store.
    Write,
    /// To load.
    Read,
}

impl Right {
    /// What the right adds to the flags of a segment, as in ELF: 1, 2 or 4.
    pub(crate) fn flag(self) -> u32
        ensures { result ≡ flag_of self }
    {
        match self {
            Right::Execute => 1,
            Right::Write => 2,
            Right::Read => 4,
        }
    }
}
