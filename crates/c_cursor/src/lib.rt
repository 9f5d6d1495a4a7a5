//! What the reading of C's grammar stands on: the tokens that are left, the names that stand for types, what a production is asked
//! for and what it answers, and why it refuses.
//!
//! A production takes a token only where some derivable list of tokens goes on with it (C90 6.3 to 6.7), so the place of rule K01
//! is that of the first token which none goes on with. **Room** is the number of nodes that may still lie one above the other
//! where a production begins. A node read with a room of n has a height of at most n, the things in it at most n - 1. Where a
//! token would put more nodes one above the other, rule L03 stands at it.
#![tactic(auto)]

mod names;
mod operators;
mod parser;
mod peek;
mod read;
mod refused;
mod specifiers;

pub use names::TypeNames;
pub use operators::{
    assignment_operator, binary_operator, level_of, prefix_operator, step_operator,
};
pub use parser::Parser;
pub use read::{Goal, List, MOST_NODES, Mode, Read, ReadDeclarator, outside};
pub use refused::ParseRefused;
pub use specifiers::{SpecifierToken, specifier_keyword};
