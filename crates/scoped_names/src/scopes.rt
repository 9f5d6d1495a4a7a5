//! Declared names, found by a hash of the name.

use fsc_base::NoMemory;
use indexmap::IndexMap;
use std::alloc::Global;

/// The name spaces that a scope has (C90 6.1.2.3): tags, and ordinary identifiers. Labels and members have tables of their own
/// elsewhere.
#[derive(Clone, Copy, Debug, PartialEq, Eq)]
pub enum Space {
    Ordinary,
    Tag,
}

/// A name that a scope declares.
#[derive(Drop)]
pub(crate) struct Declared<V> {
    pub(crate) space: Space,
    /// The number of its name.
    pub(crate) name: usize,
    pub(crate) what: V,
    /// The declaration of the same name and space that it hides.
    pub(crate) hidden: Option<usize>,
}

/// What a closed scope declared, in order. It belongs to the scopes that it was taken from.
#[derive(Drop)]
pub struct Level<V> {
    pub(crate) entries: Vec<Declared<V>>,
}

/// The innermost declarations of a name.
#[derive(Clone, Copy, Debug)]
pub(crate) struct Innermost {
    ordinary: Option<usize>,
    tag: Option<usize>,
}

/// Open scopes, from the outermost, which is always open, to the innermost; each name that one declares stands for a value.
#[derive(Drop)]
pub struct Scopes<V> {
    pub(crate) alloc: Global,
    /// Each name that was ever declared. Its index is its number.
    pub(crate) names: IndexMap<Vec<u8>, Innermost>,
    pub(crate) entries: Vec<Declared<V>>,
    /// Where the entries of each scope but the outermost begin.
    pub(crate) starts: Vec<usize>,
}

impl Innermost {
    fn of(&self, space: Space) -> Option<usize> {
        match space {
            Space::Ordinary => self.ordinary,
            Space::Tag => self.tag,
        }
    }

    fn with(self, space: Space, entry: Option<usize>) -> Innermost {
        match space {
            Space::Ordinary => Innermost {
                ordinary: entry,
                tag: self.tag,
            },
            Space::Tag => Innermost {
                ordinary: self.ordinary,
                tag: entry,
            },
        }
    }
}

impl<V> Level<V> {
    /// A closed scope that declared nothing. It takes no memory.
    pub fn empty(alloc: Global) -> Level<V> {
        Level {
            entries: Vec::new(alloc),
        }
    }
}

impl<V> Scopes<V> {
    /// The outermost scope, open, with no names. It takes no memory.
    pub fn new(alloc: Global) -> Scopes<V> {
        Scopes {
            alloc,
            names: IndexMap::new(alloc),
            entries: Vec::new(alloc),
            starts: Vec::new(alloc),
        }
    }

    /// How many scopes are open inside the outermost.
    pub fn depth(&self) -> usize {
        self.starts.len()
    }

    /// Where the entries of the innermost scope begin.
    fn start(&self) -> usize {
        match self.starts.last() {
            Some(start) => *start,
            None => 0,
        }
    }

    /// The entry of a name's innermost declaration.
    fn found(&self, space: Space, name: &[u8]) -> Option<usize> {
        self.names.get(name)?.of(space)
    }

    /// The entry of a name's innermost declaration, where the innermost scope made it.
    fn found_here(&self, space: Space, name: &[u8]) -> Option<usize> {
        let at = self.found(space, name)?;
        if at < self.start() {
            return None;
        }
        Some(at)
    }

    /// What the innermost declaration of a name says; None where no open scope declares it in this space.
    pub fn find(&self, space: Space, name: &[u8]) -> Option<&V> {
        let entry = self.entries.get(self.found(space, name)?)?;
        Some(&entry.what)
    }

    /// What the innermost scope says of a name; None where that scope doesn't declare it in this space.
    pub fn find_here(&self, space: Space, name: &[u8]) -> Option<&V> {
        let entry = self.entries.get(self.found_here(space, name)?)?;
        Some(&entry.what)
    }

    /// The number of a name, which is given one where it has none. Refused only for want of memory, and then nothing has changed.
    fn number(&mut self, name: &[u8]) -> Result<usize, NoMemory> {
        if let Some((index, _, _)) = self.names.get_full(name) {
            return Ok(index);
        }
        let index = self.names.len();
        self.names.insert(
            Vec::from_slice(self.alloc, name)?,
            Innermost {
                ordinary: None,
                tag: None,
            },
        )?;
        Ok(index)
    }

    /// Makes an entry, or none, the innermost of a name. Answers what it was.
    pub(crate) fn set(&mut self, space: Space, name: usize, entry: Option<usize>) -> Option<usize> {
        let found = self.names.get_index_mut(name)?;
        let before = found.of(space);
        *found = found.with(space, entry);
        before
    }
}

impl<V: Drop> Scopes<V> {
    /// Declares a name in the innermost scope. It hides an earlier declaration of the name in this space, also one of the same
    /// scope. Refused only for want of memory, and then every name says what it said before.
    pub fn declare(&mut self, space: Space, name: &[u8], what: V) -> Result<(), NoMemory> {
        let name = self.number(name)?;
        self.entries.reserve(1)?;
        let at = self.entries.len();
        let hidden = self.set(space, name, Some(at));
        self.entries.push(Declared {
            space,
            name,
            what,
            hidden,
        })?;
        Ok(())
    }

    /// Changes what the innermost scope says of a name. Answers false, and changes nothing, where that scope doesn't declare
    /// the name in this space.
    pub fn replace_here(&mut self, space: Space, name: &[u8], what: V) -> bool {
        let Some(at) = self.found_here(space, name) else {
            return false;
        };
        let Some(entry) = self.entries.get_mut(at) else {
            return false;
        };
        entry.what = what;
        true
    }
}
