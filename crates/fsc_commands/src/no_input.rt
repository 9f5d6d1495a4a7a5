//! The input of a program that is given none.

ghost use Rattle.std.specs.Prelude.{[], Some};

use fsc_outside::{Source, Took};

/// A source of no bytes, which never fails.
#[derive(Debug, Drop)]
pub(crate) struct NoInput;

impl Source for NoInput {
    ghost left = { λ _. Some [] };

    ghost fault_count = { λ _. 0 };

    fn faults(&self) -> u64 {
        0
    }

    fn read(&mut self, _buffer: &mut [u8]) -> Took {
        Took::End
    }
}
