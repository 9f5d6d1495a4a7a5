//! The rows of a program: what its functions do, one step each, in places that name one another. A row of an expression finds the
//! values of its operands among the words that are still wanted, and leaves its own there; where to go on is a place. So
//! a run needs no trees, and no step of it looks for anything.
#![tactic(auto)]

mod callee;
mod expression;
mod function;
mod initialiser;
mod locals;
mod refusal;
mod row;
mod statement;
mod switch;
mod translator;

pub use callee::Callee;
pub use refusal::RowsNo;
pub use row::{Act, Row, Spot};
pub use translator::{Translator, UnitBlocks};
