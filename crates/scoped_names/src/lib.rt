//! Names in nested scopes (C90 6.1.2.1, 6.1.2.3): what the innermost declaration of a name says, in each name space.
//!
//! A table finds a name by its hash, and each declaration knows the one that it hides. So looking a name up, declaring it and
//! forgetting it when its scope closes take a time that does not depend on how many scopes are open. Every call may be made at
//! any time; none has a value that it can't be called with.
#![tactic(auto)]

mod level;
mod scopes;

pub use scopes::{Level, Scopes, Space};
