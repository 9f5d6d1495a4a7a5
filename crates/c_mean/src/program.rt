//! Programs.

use mean_rows::{Callee, Row};
use start_blocks::{BlockNumbers, LinkView};

/// A program as a run needs it: the rows of its functions, its functions by the numbers of their blocks, from 1, and what memory
/// holds at the start.
#[derive(Drop)]
pub struct Program {
    pub(crate) rows: Vec<Row>,
    pub(crate) callees: Vec<Option<Callee>>,
    /// The place where a run begins: `main` is called there without arguments.
    pub(crate) start: u32,
    pub(crate) views: Vec<LinkView>,
    pub(crate) numbers: BlockNumbers,
}
