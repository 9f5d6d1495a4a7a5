//! Calls (C90 6.3.2.2): what is called, how many arguments it takes, how each is passed, and the calls of primitives, whose names
//! begin with `__fsc_`.
#![tactic(auto)]

mod calling;
mod primitive;

pub use calling::{
    Callee, MOST_ARGUMENTS, Passing, Taking, call_of, callee_of, is_passed, is_taken, passing_of,
    taking_of,
};
pub use primitive::{Formal, call_primitive, formal_of, primitive_named, returned_by};
