//! The names that a token is no longer expanded for.

ghost use Rattle.std.specs.Prelude.{◌≡◌, [], ◌↔◌, IsTrue, IfOk, OnOk, OnErr, Contains};
ghost use Rattle.pp_token.specs.HideSets.{has, with_name, with_names, common, NoRepeats};

use fsc_base::{Bytes, Name, NoMemory};
use smallvec::SmallVec;
use std::alloc::Global;
use std::marker::Model;

/// The names of the macros that a token came from, each once. Most tokens have none, and that takes no memory.
#[derive(Debug, Drop)]
pub struct HideSet {
    names: SmallVec<Name, 1>,
}

impl Model for HideSet {
    ghost use Rattle.std.specs.Prelude.{ℕ, List};
    ghost use Rattle.pp_token.specs.HideSets.{NoRepeats};

    ghost Value = { List (List ℕ) };

    ghost view = { λ h. h.names.items };

    ghost invariant = { λ h. NoRepeats h.names.items };
}

impl HideSet {
    /// No names. It takes no memory.
    pub fn new(alloc: Global) -> HideSet
        ensures { result ≡ [] }
    {
        HideSet {
            names: SmallVec::new(alloc),
        }
    }

    /// The names, lent, each once.
    pub fn as_slice(&self) -> &[Name]
        ensures names { result.now ≡ self.now }
        ensures once { NoRepeats result.now }
    {
        self.names.as_slice()
    }

    /// Whether `name` is one of the names.
    pub fn contains(&self, name: &[u8]) -> bool
        ensures tested { result ≡ has self.now name.now }
        ensures is_one { IsTrue result ↔ Contains self.now name.now }
    {
        self.as_slice().iter().any(|known| known.as_slice() == name)
    }

    /// Puts `name` at the end, unless it is one of the names already. Refused only for want of memory, and then
    /// nothing changes.
    pub fn insert(&mut self, name: &[u8]) -> Result<(), NoMemory>
        ensures ok { OnOk result (self.new ≡ with_name self.old name.now) }
        ensures err { OnErr result (self.new ≡ self.old) }
    {
        if self.contains(name) {
            return Ok(());
        }
        let name = Bytes::from_slice(*self.names.allocator(), name)?;
        self.names.push(name)?;
        Ok(())
    }

    /// Inserts each of the `others`. Refused only for want of memory.
    pub fn insert_all(&mut self, others: &HideSet) -> Result<(), NoMemory>
        ensures { OnOk result (self.new ≡ with_names self.old others.now) }
    {
        for other in others.as_slice() {
            self.insert(other.as_slice())?;
        }
        Ok(())
    }

    /// The names that both have, in the order of this one. Refused only for want of memory.
    pub fn common(&self, alloc: Global, others: &HideSet) -> Result<HideSet, NoMemory>
        ensures { IfOk result (λ both. both ≡ common self.now others.now) }
    {
        let mut names = SmallVec::new(alloc);
        for name in self.as_slice() {
            if others.contains(name.as_slice()) {
                names.push(Bytes::from_slice(alloc, name.as_slice())?)?;
            }
        }
        Ok(HideSet { names })
    }

    /// The same names once more. Refused only for want of memory.
    pub fn copy(&self, alloc: Global) -> Result<HideSet, NoMemory>
        ensures { IfOk result (λ copy. copy ≡ self.now) }
    {
        let mut names = SmallVec::new(alloc);
        for name in self.as_slice() {
            names.push(Bytes::from_slice(alloc, name.as_slice())?)?;
        }
        Ok(HideSet { names })
    }
}
