//! Opening and closing scopes.

use crate::scopes::{Declared, Level, Scopes};
use fsc_base::NoMemory;

impl<V> Scopes<V> {
    /// Opens a scope. Refused only for want of memory, and then nothing has changed.
    pub fn enter(&mut self) -> Result<(), NoMemory> {
        self.starts.push(self.entries.len())?;
        Ok(())
    }
}

impl<V: Drop> Scopes<V> {
    /// Makes the last entry's name say what it said before that entry.
    fn forget_last(&mut self) {
        if let Some(entry) = self.entries.pop() {
            let _ = self.set(entry.space, entry.name, entry.hidden);
        }
    }

    /// Closes the innermost scope: each name says what it said when that scope was opened. Where only the outermost scope is
    /// open, nothing changes. It takes no memory.
    pub fn leave(&mut self) {
        let Some(start) = self.starts.pop() else {
            return;
        };
        for _ in start..self.entries.len() {
            self.forget_last();
        }
    }

    /// Makes the names of entries that were taken away say what they said before them, from the last one on.
    fn forget_all(&mut self, entries: &[Declared<V>]) {
        for entry in entries.iter().rev() {
            let _ = self.set(entry.space, entry.name, entry.hidden);
        }
    }

    /// Closes the innermost scope as `leave` does, and answers what it declared; nothing, where only the outermost scope is
    /// open. Refused only for want of memory, and then nothing has changed.
    pub fn leave_with(&mut self) -> Result<Level<V>, NoMemory> {
        let Some(start) = self.starts.last() else {
            return Ok(Level::empty(self.alloc));
        };
        let start = (*start).min(self.entries.len());
        let entries = self.entries.split_off(start)?;
        let _ = self.starts.pop();
        self.forget_all(&entries);
        Ok(Level { entries })
    }

    /// Adds an entry that a scope had, for which there is room.
    fn add(&mut self, entry: Declared<V>) -> Result<(), NoMemory> {
        let at = self.entries.len();
        let hidden = self.set(entry.space, entry.name, Some(at));
        self.entries.push(Declared { hidden, ..entry })?;
        Ok(())
    }

    /// Opens a scope that declares what a closed one did, in the same order. Refused only for want of memory, and then nothing
    /// has changed.
    pub fn enter_with(&mut self, level: Level<V>) -> Result<(), NoMemory> {
        let Level { entries } = level;
        self.entries.reserve(entries.len())?;
        self.enter()?;
        for entry in entries {
            self.add(entry)?;
        }
        Ok(())
    }
}
