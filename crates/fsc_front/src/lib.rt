//! The front end: a file's text, with what it includes, becomes a typed unit, or is refused with the rule, the place and
//! the file of C90 that it breaks.
#![tactic(auto)]

mod refusal;
mod typing;

pub use refusal::FrontNo;
pub use typing::typed_unit;
