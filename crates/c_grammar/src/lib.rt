//! The grammar of C90: which untyped tree derives from which tokens. The definitions stand in `specs/`; `laws` shows them at work.
#![tactic(auto)]

mod laws;

pub use laws::{else_is_nearest, grammar_is_broken, names_decide, operators_group, units_derive};
