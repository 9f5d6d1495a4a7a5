//! Shapes by the numbers of their descriptors.

ghost use Rattle.std.specs.Prelude.{◌≡◌, ◌%◌, ◌≤◌, [], ◌∷◌, ◌++◌, OnOk, OnErr};
ghost use Rattle.std.specs.Option.{option_copied};
ghost use Rattle.type_desc.specs.Shapes.{shape_of};

use crate::shape::Shape;
use fsc_base::NoMemory;
use indexmap::IndexMap;
use std::alloc::Global;
use std::marker::Model;

/// Shapes and the numbers of their descriptors, in the order in which they were added. A number is found in about the same
/// time, however many there are. Contracts see the list of pairs.
#[derive(Drop)]
pub struct Shapes {
    pairs: IndexMap<u32, Shape>,
}

impl Model for Shapes {
    ghost use Rattle.std.specs.Prelude.{List, ℕ};
    ghost use Rattle.fsc_base.specs.declared.word.WordKind.{WordKind};

    ghost Value = { List (ℕ × List WordKind) };

    ghost view = { λ s. s.pairs.entries };
}

impl Shapes {
    /// No shapes. It takes no memory.
    pub fn new(alloc: Global) -> Shapes
        ensures { result ≡ [] }
    {
        Shapes {
            pairs: IndexMap::new(alloc),
        }
    }

    /// Adds a shape under a number that is a multiple of 4, at least 4, and not there yet. Refused only for want of memory;
    /// all stays then as it was.
    pub fn add(&mut self, desc: u32, shape: Shape) -> Result<(), NoMemory>
        requires multiple { desc % 4 ≡ 0 }
        requires address { 4 ≤ desc }
        requires absent { shape_of self.old desc ≡ None }
        ensures added { OnOk result (self.new ≡ self.old ++ (desc, shape) ∷ []) }
        ensures refused { OnErr result (self.new ≡ self.old) }
    {
        self.pairs.insert(desc, shape)?;
        Ok(())
    }

    /// The shape of a number, or None exactly where the number is not there. It takes no memory.
    pub fn get(&self, desc: u32) -> Option<&Shape>
        ensures { option_copied result ≡ shape_of self.now desc }
    {
        self.pairs.get(&desc)
    }
}
