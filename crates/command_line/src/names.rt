//! Lists of names.

ghost use Rattle.std.specs.Prelude.{◌≡◌, ℕ, List};

use fsc_base::Name;
use std::marker::Model;

/// Names of files in an order. Contracts see it as the list of the names.
#[derive(Debug, Drop)]
pub struct Names {
    items: Vec<Name>,
}

impl Model for Names {
    ghost Value = { List (List ℕ) };

    ghost view = { λ names. names.items.items };
}

impl Names {
    /// The same names, from a vector. It takes no memory.
    pub fn from_vec(items: Vec<Name>) -> Names
        ensures { result ≡ items.items }
    {
        Names { items }
    }

    /// The names, lent.
    pub fn as_slice(&self) -> &[Name]
        ensures { result.now ≡ self.now }
    {
        self.items.as_slice()
    }
}
