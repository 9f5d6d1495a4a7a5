//! Objects that are alive.

ghost use Rattle.std.specs.Prelude.{◌≡◌, []};

use std::alloc::Global;
use std::marker::Model;
use type_desc::Kinds;

/// Which shape an object has.
#[derive(Debug, Drop)]
pub enum LiveShape {
    /// None so far.
    Undecided,
    /// The one of these words.
    Words(Kinds),
}

/// An object that is alive.
#[derive(Debug, Drop)]
pub struct Live {
    /// The number of its block, from 1.
    pub block: u32,
    /// How many bytes it has.
    pub size: u32,
    pub shape: LiveShape,
}

/// A list of objects. Contracts see it as that list.
#[derive(Debug, Drop)]
pub struct Lives {
    items: Vec<Live>,
}

impl Model for Lives {
    ghost use Rattle.std.specs.Prelude.{List};
    ghost use Rattle.block_report.specs.declared.live.Live.{Live};

    ghost Value = { List Live };

    ghost view = { λ lives. lives.items.items };
}

impl Lives {
    /// No objects. It takes no memory.
    pub fn new(alloc: Global) -> Lives
        ensures { result ≡ [] }
    {
        Lives {
            items: Vec::new(alloc),
        }
    }

    /// The objects, from a vector. It takes no memory.
    pub fn from_vec(items: Vec<Live>) -> Lives
        ensures { result ≡ items.items }
    {
        Lives { items }
    }

    /// The objects, lent.
    pub fn as_slice(&self) -> &[Live]
        ensures { result.now ≡ self.now }
    {
        self.items.as_slice()
    }
}
