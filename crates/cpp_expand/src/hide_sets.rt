//! Hide sets (the names that a token is no longer expanded for), kept so that sets share what they have in common.

use fsc_base::NoMemory;
use indexmap::IndexSet;
use std::alloc::Global;

/// A hide set: 0 for no names, else one more than the index of its node.
#[derive(Clone, Copy, Debug, PartialEq, Eq, Hash)]
pub struct HideId(usize);

impl HideId {
    /// No names.
    pub const NONE: HideId = HideId(0);
}

/// A hide set with a name in front.
#[derive(Clone, Copy, Debug, PartialEq, Eq, Hash)]
struct HideNode {
    /// The index of a macro.
    name: usize,
    rest: HideId,
}

/// All hide sets that came up, each once.
#[derive(Drop)]
pub struct HideSets {
    nodes: IndexSet<HideNode>,
    /// How many names were looked at so far.
    looked: u64,
}

impl HideSets {
    /// The empty set alone. It takes no memory.
    pub fn new(alloc: Global) -> HideSets {
        HideSets {
            nodes: IndexSet::new(alloc),
            looked: 0,
        }
    }

    /// How many names were looked at so far.
    pub fn looked(&self) -> u64 {
        self.looked
    }

    /// The node of a set. None for the empty one.
    fn node(&self, set: HideId) -> Option<HideNode> {
        let index = set.0.checked_sub(1)?;
        self.nodes.get_index(index).copied()
    }

    /// Whether a set has the name.
    pub fn has(&mut self, set: HideId, name: usize) -> bool {
        let mut rest = set;
        for _ in 0..self.nodes.len() {
            let Some(node) = self.node(rest) else {
                return false;
            };
            if node.name == name {
                return true;
            }
            self.looked = self.looked.saturating_add(1);
            rest = node.rest;
        }
        false
    }

    /// The set, and the name.
    pub fn with(&mut self, set: HideId, name: usize) -> Result<HideId, NoMemory> {
        if self.has(set, name) {
            return Ok(set);
        }
        let (index, _) = self.nodes.insert_full(HideNode { name, rest: set })?;
        Ok(HideId(index.saturating_add(1)))
    }

    /// The names of either set.
    pub fn with_all(&mut self, set: HideId, more: HideId) -> Result<HideId, NoMemory> {
        if set == HideId::NONE || set == more {
            return Ok(more);
        }
        let mut all = set;
        let mut rest = more;
        for _ in 0..self.nodes.len() {
            let Some(node) = self.node(rest) else {
                break;
            };
            all = self.with(all, node.name)?;
            rest = node.rest;
        }
        Ok(all)
    }

    /// The names that both sets have.
    pub fn in_both(&mut self, a: HideId, b: HideId) -> Result<HideId, NoMemory> {
        if a == b {
            return Ok(a);
        }
        let mut both = HideId::NONE;
        let mut rest = a;
        for _ in 0..self.nodes.len() {
            let Some(node) = self.node(rest) else {
                break;
            };
            if self.has(b, node.name) {
                both = self.with(both, node.name)?;
            }
            rest = node.rest;
        }
        Ok(both)
    }
}
