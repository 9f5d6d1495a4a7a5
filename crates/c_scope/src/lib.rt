//! What the text so far says of each name: the open scopes, the symbols with linkage, the objects that may be made, the function
//! that is being read, and the unit that comes of it (C90 6.1.2).
//!
//! Objects of a finished unit stand in order of their first tokens, without those that stay undefined and without strings that
//! fill arrays of characters. Both are known late. So a unit is read with a guess which candidates are made: first, that all are;
//! and where that was wrong once more, with what the first reading told.
//!
//! Every call may be made at any time. An index that no declaration gave names nothing: a call that has to answer something
//! for it refuses it as an undeclared name.
#![tactic(auto)]

mod draft;
mod entity;
mod frame;
mod linking;
mod names;
mod scope;
mod settling;
mod symbol;

pub use draft::Kept;
pub use entity::{Entity, is_reserved};
pub use linking::LinkedName;
pub use scope::Scope;
pub use scoped_names::{Level, Space};
