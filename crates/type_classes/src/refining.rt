//! Rounds of refinement: in each, a type's class becomes that of its own class and of the classes of the types in it. A type that is
//! no struct or union takes the new class of a part that is none either and stands before it, so that only chains of structs and
//! unions cost rounds.

use crate::graph::{TypeGraph, number};
use fsc_base::NoMemory;
use indexmap::IndexMap;
use std::alloc::Global;

/// How many nodes are looked at in all rounds together before each is left a class of its own.
const MOST_LOOKS: usize = 0x400_0000;

/// The classes of a round, and how many there are.
#[derive(Drop)]
pub(crate) struct Round {
    pub classes: Vec<u32>,
    count: usize,
}

impl TypeGraph {
    /// Where the parts of a node end.
    fn parts_end(&self, at: usize) -> usize {
        match self.nodes.get(at.saturating_add(1)) {
            Some(next) => next.parts,
            None => self.parts.len(),
        }
    }

    /// The parts of a node.
    fn parts_at(&self, at: usize, from: usize) -> &[u32] {
        let end = self.parts_end(at);
        if from <= end && end <= self.parts.len() {
            &self.parts[from..end]
        } else {
            &[]
        }
    }

    fn is_record_at(&self, at: usize) -> bool {
        match self.nodes.get(at) {
            Some(node) => node.is_record,
            None => true,
        }
    }

    /// The class of a part of a node: the new one where it is there, and neither is a struct or union.
    fn part_class(&self, part: u32, is_record: bool, old: &[u32], new: &[u32]) -> u32 {
        let at = part as usize;
        let newer = if is_record || self.is_record_at(at) {
            None
        } else {
            new.get(at)
        };
        match newer {
            Some(class) => *class,
            None => old.get(at).copied().unwrap_or(0),
        }
    }

    /// What a node's new class is by: its own class and those of its parts.
    fn key(&self, at: usize, old: &[u32], new: &[u32]) -> Result<Vec<u32>, NoMemory> {
        let mut key = Vec::new(self.alloc);
        key.push(old.get(at).copied().unwrap_or(0))?;
        let Some(node) = self.nodes.get(at) else {
            return Ok(key);
        };
        'parts: for part in self.parts_at(at, node.parts) {
            key.push(self.part_class(*part, node.is_record, old, new))?;
        }
        Ok(key)
    }

    /// One round.
    fn round(&self, old: &[u32]) -> Result<Round, NoMemory> {
        let mut keys = IndexMap::new(self.alloc);
        let mut classes = Vec::new(self.alloc);
        'nodes: for at in 0..self.nodes.len() {
            let key = self.key(at, old, &classes)?;
            classes.push(class_of(&mut keys, key)?)?;
        }
        Ok(Round {
            classes,
            count: keys.len(),
        })
    }

    /// The classes by forms alone.
    fn first_round(&self) -> Result<Round, NoMemory> {
        let mut classes = Vec::new(self.alloc);
        'nodes: for node in &self.nodes {
            classes.push(node.class)?;
        }
        Ok(Round { classes, count: 0 })
    }

    /// The classes that no further round divides; a class for each node where that takes too long.
    pub(crate) fn refined(&self) -> Result<Vec<u32>, NoMemory> {
        let mut last = self.first_round()?;
        let rounds = MOST_LOOKS / self.nodes.len().max(1);
        'rounds: for _ in 0..rounds {
            let next = self.round(&last.classes)?;
            let is_done = next.count == last.count;
            last = next;
            if is_done {
                let Round { classes, .. } = last;
                return Ok(classes);
            }
        }
        own_classes(self.alloc, self.nodes.len())
    }
}

/// The number of a key, which is new if it was not there.
fn class_of(keys: &mut IndexMap<Vec<u32>, u32>, key: Vec<u32>) -> Result<u32, NoMemory> {
    if let Some(class) = keys.get(key.as_slice()) {
        return Ok(*class);
    }
    let class = number(keys.len())?;
    keys.insert(key, class)?;
    Ok(class)
}

/// A class for each of so many nodes.
fn own_classes(alloc: Global, count: usize) -> Result<Vec<u32>, NoMemory> {
    let mut classes = Vec::new(alloc);
    'nodes: for at in 0..count {
        classes.push(number(at)?)?;
    }
    Ok(classes)
}
