//! Why units don't make a program.

use fsc_base::{Bytes, Name, Rule};

/// The rule of linking that is broken, the name for which it is broken, and what tells more of it.
#[derive(Debug, Drop)]
pub struct LinkFault {
    /// One of M01 to M06.
    pub rule: Rule,
    /// `main` for M04, M05 and M06.
    pub name: Name,
    /// For M01 the type of the earlier declaration, for M02 the number of the earlier definition's unit, from 0 in link
    /// order, for M05 and M06 what was counted; else empty. Numbers are decimal.
    pub first: Bytes,
    /// For M01 the type of the later declaration, for M02 the number of the later definition's unit, for M05 and M06 the
    /// limit; else empty.
    pub second: Bytes,
}
