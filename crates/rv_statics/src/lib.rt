//! What the memory of an image holds at the start of a run: the records of shapes, and the headers and cells of the blocks.
#![tactic(auto)]

mod bytes;
mod cells;
mod content;
mod data;
mod shapes;
mod statics;

pub use bytes::{count, next_sixteen};
pub use content::{Content, Contents};
pub use data::{Counts, data_segment};
pub use shapes::{ShapeRecord, ShapeRecords};
pub use statics::{Blocks, Statics, base_of};
