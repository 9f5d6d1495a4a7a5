//! Lists of kinds of words.

ghost use Rattle.std.specs.Prelude.{◌≡◌, IfOk};

use fsc_base::{NoMemory, WordKind};
use std::alloc::Global;
use std::marker::Model;

/// Kinds of words, in order. Contracts see them as that list.
#[derive(Debug, Drop)]
pub struct Kinds {
    items: Vec<WordKind>,
}

impl Model for Kinds {
    ghost use Rattle.std.specs.Prelude.{List};
    ghost use Rattle.fsc_base.specs.declared.word.WordKind.{WordKind};

    ghost Value = { List WordKind };

    ghost view = { λ k. k.items.items };
}

impl Kinds {
    /// A copy of these kinds. Refused only for want of memory.
    pub fn from_slice(alloc: Global, kinds: &[WordKind]) -> Result<Kinds, NoMemory>
        ensures { IfOk result (λ copy. copy ≡ kinds.now) }
    {
        Ok(Kinds {
            items: Vec::from_slice(alloc, kinds)?,
        })
    }

    /// The same kinds, from a vector. It takes no memory.
    pub fn from_vec(items: Vec<WordKind>) -> Kinds
        ensures { result ≡ items.items }
    {
        Kinds { items }
    }

    /// The same kinds as a vector. It takes no memory.
    pub fn into_vec(self) -> Vec<WordKind>
        ensures { result.items ≡ self }
    {
        let Kinds { items } = self;
        items
    }

    /// The kinds, lent.
    pub fn as_slice(&self) -> &[WordKind]
        ensures { result.now ≡ self.now }
    {
        self.items.as_slice()
    }
}
