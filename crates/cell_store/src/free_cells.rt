//! The free cells of one class.

ghost use Rattle.std.specs.Prelude.{◌≡◌, ◌+◌, ◌<◌, ◌==◌, [], ◌∷◌, ◌++◌, length, IfOk, MatchOption};
ghost use Rattle.cell_store.specs.Pools.{with_cells};

use fsc_base::NoMemory;
use std::alloc::Global;
use std::marker::Model;

/// Addresses of free cells, the next to be used at the end. Room for as many as the region can have is there from the start.
#[derive(Debug, Drop)]
pub(crate) struct FreeCells {
    cells: Vec<u32>,
}

impl Model for FreeCells {
    ghost use Rattle.std.specs.Prelude.{vec_capacity};
    ghost use Rattle.cell_store.specs.Pools.{FreeList};

    ghost Value = { FreeList };

    ghost view = { λ f. record { cells = f.cells.items; room = vec_capacity f.cells } };
}

impl FreeCells {
    /// No cells, and room for so many. Refused only for want of memory.
    pub(crate) fn new(alloc: Global, room: usize) -> Result<FreeCells, NoMemory>
        ensures { IfOk result (λ list. list ≡ record { cells = []; room = room }) }
    {
        let cells = Vec::with_capacity(alloc, room)?;
        Ok(FreeCells { cells })
    }

    pub(crate) fn is_empty(&self) -> bool
        ensures { result ≡ (length self.now.cells == 0) }
    {
        self.cells.is_empty()
    }

    /// Takes the last one, where there is one.
    pub(crate) fn take(&mut self) -> Option<u32>
        ensures { MatchOption result
            ((self.old.cells ≡ []) × (self.new ≡ self.old))
            (λ cell. (self.old.cells ≡ self.new.cells ++ cell ∷ []) × (self.new ≡ with_cells self.old self.new.cells)) }
    {
        self.cells.pop()
    }

    /// Puts one at the end, where there is room for it.
    pub(crate) fn put(&mut self, cell: u32)
        requires { length self.old.cells < self.old.room }
        ensures { self.new ≡ with_cells self.old (self.old.cells ++ cell ∷ []) }
    {
        self.cells.push_reserved(cell);
    }
}
