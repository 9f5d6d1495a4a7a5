//! The blocks that are there from the start of a program: their numbers, and what memory holds in them. It sees units as linking
//! does, whether they are typed trees or fat code.
#![tactic(auto)]

mod memory;
mod numbers;
mod refusal;
mod view;

pub use memory::{address, start_heap};
pub use numbers::{BlockNumbers, MAIN, numbers_of};
pub use refusal::StartNo;
pub use view::{LinkObject, LinkPiece, LinkSymbol, LinkValue, LinkView};
