//! From linked programs of fat code to images: code, the data of the runtime, and the blocks that are there from the start of a run.
#![tactic(auto)]

mod function;
mod height;
mod image;
mod names;
mod no;
mod op;
mod start;
mod unit;

pub use image::generate;
pub use no::GenerateNo;
