//! Files of units of fat code: reading and writing.
#![tactic(auto)]

mod number;
mod objects;
mod ops;
mod parts;
mod refusal;
mod spelled;
mod tag;
mod types;
mod unit;

pub use refusal::ReadUnitNo;
pub use unit::{MOST_FILE_BYTES, read_unit, unit_len, write_unit};
