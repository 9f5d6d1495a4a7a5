//! Units after phase 4.

ghost use Rattle.std.specs.Prelude.{◌≡◌};

use crate::token::PpTokens;
use fsc_base::Name;
use std::marker::Model;

/// A list of names.
#[derive(Debug, Drop)]
pub struct Names {
    items: Vec<Name>,
}

impl Model for Names {
    ghost use Rattle.std.specs.Prelude.{ℕ, List};

    ghost Value = { List (List ℕ) };

    ghost view = { λ n. n.items.items };
}

impl Names {
    /// The names, from a vector. It takes no memory.
    pub fn from_vec(items: Vec<Name>) -> Names
        ensures { result ≡ items.items }
    {
        Names { items }
    }

    /// The same names as a vector. It takes no memory.
    pub fn into_vec(self) -> Vec<Name>
        ensures { result.items ≡ self }
    {
        let Names { items } = self;
        items
    }

    /// The names, lent.
    pub fn as_slice(&self) -> &[Name]
        ensures { result.now ≡ self.now }
    {
        self.items.as_slice()
    }
}

/// A unit after phase 4: its tokens, and its files in order of first opening, of which the first is the unit's own.
#[derive(Debug, Drop)]
pub struct PpUnit {
    /// The last token is End.
    pub tokens: PpTokens,
    pub opened: Names,
}
