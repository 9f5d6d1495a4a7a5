//! The program of a case.

use case_file::{CaseNo, Field};
use fsc_base::{Bytes, Name};
use std::alloc::Global;

/// The program of a case, and what it is run on.
#[derive(Drop)]
pub struct Given {
    /// The names of its units, in order.
    pub units: Vec<Name>,
    /// Those and the others that they include.
    pub files: Vec<(Name, Bytes)>,
    pub input: Vec<u8>,
    /// The cost up to which its meaning is followed.
    pub cost: u64,
    /// Whether the machine of fat code is given a whole region.
    pub is_large: bool,
}

impl Given {
    /// No units.
    pub fn new(alloc: Global) -> Given {
        Given {
            units: Vec::new(alloc),
            files: Vec::new(alloc),
            input: Vec::new(alloc),
            cost: 0,
            is_large: false,
        }
    }

    /// Takes a unit.
    pub fn take_unit(&mut self, alloc: Global, field: Field) -> Result<(), CaseNo> {
        self.units.push(Bytes::from_vec(field.head_bytes(alloc)?))?;
        self.take_file(alloc, field)
    }

    /// Takes another file.
    pub fn take_file(&mut self, alloc: Global, field: Field) -> Result<(), CaseNo> {
        let name = Bytes::from_vec(field.head_bytes(alloc)?);
        self.files.push((name, Bytes::from_vec(body(field))))?;
        Ok(())
    }
}

/// The bytes of a field.
pub fn body(field: Field) -> Vec<u8> {
    let Field {
        line: _,
        name: _,
        head: _,
        body,
    } = field;
    body
}
