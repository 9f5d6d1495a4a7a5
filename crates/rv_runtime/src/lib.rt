//! The runtime of images: what stands in front of the code of every program. It keeps the blocks of memory, and code reaches memory
//! through it alone. An address, as every word of C, is a value and the number of a block, in two registers.
//!
//! Between two operations of a program S0 holds the start of the frame plus 2,048, S1 the address in front of the headers,
//! `layout::HEADERS`, S2 that of the data segment, S3 how many activations are free. A0 and A1 hold the last pending word. Routines
//! are called with RA as link; they may change A2 to A7, T0 to T6, S4 to S11, GP and TP.
#![tactic(auto)]

mod blocks;
mod calls;
mod copies;
mod entries;
pub mod layout;
mod methods;
mod near;
mod places;
mod primitives;
mod routine;
mod stops;

pub use entries::{Accesses, Blocks, Calls, Entries, Primitives, Ranges, Stops};
pub use routine::emit_runtime;
