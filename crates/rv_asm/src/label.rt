//! Labels.

ghost use Rattle.std.specs.Prelude.{◌≡◌};

use std::marker::Model;

/// A label, by its number among those of its assembler, from 0. Contracts see it as that number.
#[derive(Clone, Copy, Debug, PartialEq, Eq)]
pub struct Label {
    number: u32,
}

impl Model for Label {
    ghost use Rattle.std.specs.Prelude.{ℕ};

    ghost Value = { ℕ };

    ghost view = { λ l. l.number };

    ghost inverse = { λ n. record { number = n } };
}

impl Label {
    /// The label with a number.
    pub(crate) fn new(number: u32) -> Label
        ensures { result ≡ number }
    {
        Label { number }
    }

    /// Its number.
    pub(crate) fn number(self) -> u32
        ensures { result ≡ self }
    {
        self.number
    }
}
