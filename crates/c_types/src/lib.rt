//! C's types as tables of nodes, and how memory sees them: sizes, alignments, members and kinds of words (C90 6.1.2.5).
#![tactic(auto)]

mod bit_field;
mod form;
mod laid;
mod laws;
mod layout;
mod node;
mod preset;
mod record;
mod table;

pub use bit_field::next_first;
pub use laws::worked_layouts;
pub use layout::{LARGEST, Layout, LayoutNo};
pub use node::{Basic, Field, Fields, Member, Members, Record, TypeId, TypeIds, TypeNode};
pub use preset::{
    CHAR, INT, LONG, SHORT, SIGNED_CHAR, UNSIGNED, UNSIGNED_CHAR, UNSIGNED_LONG, UNSIGNED_SHORT,
    VOID,
};
pub use table::TypeTable;
