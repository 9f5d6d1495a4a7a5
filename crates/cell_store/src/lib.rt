//! Cells for blocks, in one region of words: size classes, free cells, and headers.
#![tactic(auto)]

mod cell_pool;
mod free_cells;
mod size;
mod store;

pub use store::{CellStore, Full};
