//! Constant expressions, and their values (C90 6.4): of integers, and of addresses.
#![tactic(auto)]

mod conversion;
mod forms;
mod integral;
mod row;
mod value;

pub use forms::constant;
pub use integral::{is_integral_constant, is_null};
