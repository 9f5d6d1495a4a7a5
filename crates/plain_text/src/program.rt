//! Programs of the form that is built, and why a text is refused.

ghost use Rattle.std.specs.Prelude.{◌≡◌};
ghost use Rattle.plain_text.specs.declared.program.ReadNo.TheVariants as refusals;

use fsc_base::{Bytes, NoMemory};

/// A program: it writes its bytes one by one with `putchar`, and its `main` returns its status.
#[derive(Debug, Drop)]
pub struct Program {
    /// What the calls of `putchar` write, in order.
    pub bytes: Bytes,
    /// What `main` returns.
    pub status: u8,
}

/// Why a text was not read.
#[derive(Clone, Copy, Debug, PartialEq, Eq)]
pub enum ReadNo {
    /// The text is no program of the form that is built.
    NotPlain,
    /// No memory was left for the program's bytes.
    NoMemory,
}

impl From<NoMemory> for ReadNo {
    ghost from_gives = { λ _ refusal. refusal ≡ refusals.NoMemory };

    fn from(_refusal: NoMemory) -> ReadNo {
        ReadNo::NoMemory
    }
}
