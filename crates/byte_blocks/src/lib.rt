//! Blocks of bytes: C's objects and functions as lists of bytes, with a base for each word. It is the plainest memory that
//! has the meaning which the definitions of `c_memory` give to reads, writes, copies and creations.
#![tactic(auto)]

mod block;
mod heap;
mod make_no;
mod piece;
mod sizes;
mod tally;

pub use c_memory::{BlockKind, CopyNo, Outside, WriteNo};
pub use heap::Heap;
pub use make_no::MakeNo;
