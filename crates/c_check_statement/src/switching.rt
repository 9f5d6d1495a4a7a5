//! The switches around a statement (C90 6.6.4.2).

use check_refusal::{CheckRefused, CheckRule, broken};
use fsc_base::{NoMemory, Place};
use indexmap::IndexSet;
use std::alloc::Global;

/// The most cases of a switch.
const LARGEST: usize = 511;

/// A switch.
#[derive(Drop)]
struct Switch {
    /// Its cases, as words of the promoted type of what it tests.
    values: IndexSet<u32>,
    has_default: bool,
}

/// The switches around a statement, the innermost last.
#[derive(Drop)]
pub(crate) struct Switches {
    alloc: Global,
    open: Vec<Switch>,
}

/// A value as a word of a type of 4 bytes.
fn word(value: i64) -> u32 {
    let [a, b, c, d, ..] = value.to_le_bytes();
    u32::from_le_bytes([a, b, c, d])
}

impl Switches {
    /// None.
    pub fn new(alloc: Global) -> Switches {
        Switches {
            alloc,
            open: Vec::new(alloc),
        }
    }

    /// Whether there is none.
    pub fn is_empty(&self) -> bool {
        self.open.is_empty()
    }

    /// A switch begins.
    pub fn begin(&mut self) -> Result<(), NoMemory> {
        self.open.push(Switch {
            values: IndexSet::new(self.alloc),
            has_default: false,
        })?;
        Ok(())
    }

    /// The innermost one ends. L13 at the place where it has too many cases.
    pub fn end(&mut self, place: Place) -> Result<(), CheckRefused> {
        match self.open.pop() {
            Some(switch) if switch.values.len() > LARGEST => Err(broken(CheckRule::L13, place)),
            _ => Ok(()),
        }
    }

    /// A case of the innermost one. Gives its word. At the place K48 where it has that case, K50 where there is no switch.
    pub fn add_case(&mut self, value: i64, place: Place) -> Result<u32, CheckRefused> {
        let value = word(value);
        let Some(switch) = self.open.last_mut() else {
            return Err(broken(CheckRule::K50, place));
        };
        if switch.values.contains(&value) {
            return Err(broken(CheckRule::K48, place));
        }
        let _ = switch.values.insert(value)?;
        Ok(value)
    }

    /// A default of the innermost one. At the place K48 where it has one, K50 where there is no switch.
    pub fn add_default(&mut self, place: Place) -> Result<(), CheckRefused> {
        let Some(switch) = self.open.last_mut() else {
            return Err(broken(CheckRule::K50, place));
        };
        if switch.has_default {
            return Err(broken(CheckRule::K48, place));
        }
        switch.has_default = true;
        Ok(())
    }
}
