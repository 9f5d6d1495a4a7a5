//! Cases and their fields.

use crate::escape::{EscapeNo, unescaped};
use crate::refusal::CaseNo;
use std::alloc::Global;
use std::str::FromStr;

/// A case: its name, and its fields in the order in which they stand.
#[derive(Debug, Drop)]
pub struct Case {
    pub name: String,
    /// The line of the file that it begins on, from 1.
    pub line: u32,
    pub fields: Vec<Field>,
}

/// A field of a case.
#[derive(Debug, Drop)]
pub struct Field {
    /// The line of the file that it begins on, from 1.
    pub line: u32,
    pub name: String,
    /// What stands behind the name on its line.
    pub head: String,
    /// The bytes that the lines below it stand for.
    pub body: Vec<u8>,
}

impl Field {
    /// The refusal of this field, for that reason.
    pub fn malformed(&self, why: &'static str) -> CaseNo {
        CaseNo::Malformed {
            line: self.line,
            why,
        }
    }

    /// The bytes that its head stands for, as a text with escapes. Refused where an escape is none, and for want of
    /// memory.
    pub fn head_bytes(&self, alloc: Global) -> Result<Vec<u8>, CaseNo> {
        unescaped(alloc, self.head.as_str()).map_err(|error| match error {
            EscapeNo::NoEscape => self.malformed("no such escape"),
            EscapeNo::NoMemory => CaseNo::NoMemory,
        })
    }

    /// The number that its head is. Refused where that is none of this type.
    pub fn number<N: FromStr>(&self) -> Result<N, CaseNo>
    where
        N::Err: Drop,
    {
        self.head
            .as_str()
            .parse()
            .map_err(|_| self.malformed("no number"))
    }
}
