//! What each operation of fat code is in machine code: a fixed list of instructions, by the operation, the function and the number of
//! pending words.
//!
//! The last pending word is in A0 (value) and A1 (block); those below it are in the frame. An operation that pushes a word first
//! spills the last one to its place, and one that takes a word fills it from there. `height` is how many words are pending before the
//! operation. Each function adds its code at the end, and is refused as the assembler's `emit` and `jump` are; the code is then of no
//! further use.
#![tactic(auto)]

mod access;
mod arithmetic;
mod control;
mod pieces;
mod primitives;
mod site;
mod words;

pub use access::{ShapePlace, cast, clear, copy, load, store};
pub use arithmetic::{binary, narrow, unary};
pub use control::{call, enter, jump, jump_case, jump_zero, leave, make_entry};
pub use pieces::{call_runtime, constant};
pub use primitives::primitive;
pub use site::{Frame, Site};
pub use words::{address, drop_word, duplicate, entry, number, slot_get, slot_set, swap};
