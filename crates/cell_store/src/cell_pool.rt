//! The part of a region that has cells.

ghost use Rattle.std.specs.Prelude.{◌≡◌, ℕ, ◌+◌, ◌*◌, ◌/◌, ◌^◌, ◌<◌, ◌≤◌, ◌==◌, [], length, replicate, slice_index, if◌then◌else◌, IfOk};
ghost use Rattle.cell_store.specs.Pools.{cell_size, free_of, with_freed, TakesCell};

use crate::free_cells::FreeCells;
use crate::size::cell_bytes;
use c_memory::CLASSES;
use fsc_base::NoMemory;
use std::alloc::Global;
use std::marker::Model;

/// Cells are taken from the end of a region downward, and each goes to its class's free cells when it is freed.
#[derive(Debug, Drop)]
pub(crate) struct CellPool {
    /// The address from which on there are cells.
    bottom: u32,
    /// How many cells each class has taken: the greatest number of its blocks that were live at once, since a new cell is
    /// taken only where none is free.
    taken: [u32; 30],
    free: Vec<FreeCells>,
}

impl Model for CellPool {
    ghost use Rattle.std.specs.Prelude.{◌≡◌, length};
    ghost use Rattle.cell_store.specs.Pools.{Pool};

    ghost Value = { Pool };

    ghost view = { λ p. record { bottom = p.bottom; taken = p.taken; free = p.free.items } };
}

impl CellPool {
    /// No cells, in a region of so many bytes. Refused only for want of memory.
    pub(crate) fn new(alloc: Global, bytes: u32) -> Result<CellPool, NoMemory>
        ensures bottom { IfOk result (λ pool. pool.bottom ≡ bytes) }
        ensures taken { IfOk result (λ pool. pool.taken ≡ replicate 30 0) }
        ensures lists { IfOk result (λ pool. length pool.free ≡ 30) }
        ensures free { IfOk result (λ pool. (class : ℕ) → class < 30 →
            free_of pool class ≡ record { cells = []; room = bytes / cell_size class }) }
    {
        let mut free = Vec::new(alloc);
        for class in 0..CLASSES.len() {
            free.push(FreeCells::new(alloc, (u64::from(bytes) / cell_bytes(class)) as usize)?)?;
        }
        Ok(CellPool {
            bottom: bytes,
            taken: [0; 30],
            free,
        })
    }

    pub(crate) fn bottom(&self) -> u32
        ensures { result ≡ self.now.bottom }
    {
        self.bottom
    }

    /// How many bytes of the region the next cell of a class takes: none where one is free.
    pub(crate) fn cost(&self, class: usize) -> u64
        requires known { class < 30 }
        requires lists { length self.now.free ≡ 30 }
        ensures { result ≡ (if length (free_of self.now class).cells == 0 then cell_size class else 0) }
    {
        if self.free[class].is_empty() {
            cell_bytes(class)
        } else {
            0
        }
    }

    /// Takes a cell of a class: a free one, or a new one where none is free. Its address.
    pub(crate) fn take(&mut self, class: usize) -> u32
        requires known { class < 30 }
        requires lists { length self.old.free ≡ 30 }
        requires classes { length self.old.taken ≡ 30 }
        requires room { (free_of self.old class).cells ≡ [] → cell_size class ≤ self.old.bottom }
        requires count { (free_of self.old class).cells ≡ [] → slice_index self.old.taken class + 1 < 2 ^ 32 }
        ensures { TakesCell self.old class result self.new }
    {
        match self.free[class].take() {
            Some(cell) => cell,
            None => {
                self.taken[class] += 1;
                self.bottom -= cell_bytes(class) as u32;
                self.bottom
            }
        }
    }

    /// Puts a cell among the free ones of a class.
    pub(crate) fn put(&mut self, class: usize, cell: u32)
        requires known { class < 30 }
        requires lists { length self.old.free ≡ 30 }
        requires room { length (free_of self.old class).cells < (free_of self.old class).room }
        ensures { self.new ≡ with_freed self.old class cell }
    {
        self.free[class].put(cell);
    }
}
