//! The function that is being read.

use c_tree::{Entry, EntryOf};
use c_types::{TypeId, TypeIds, TypeNode, TypeTable, VOID};
use check_refusal::{CheckRefused, CheckRule, broken};
use fsc_base::{Name, NoMemory, Place};
use indexmap::IndexMap;
use sqlite_items::Items;
use std::alloc::Global;

/// The most parameters, automatic names and struct calls of a function.
const LARGEST: usize = 250;

/// A parameter or automatic name.
#[derive(Clone, Copy, Debug)]
struct LocalName {
    kind: TypeId,
    /// Whether it stands under `&`.
    is_addressed: bool,
}

/// A label, by its first mention.
#[derive(Clone, Copy, Debug)]
struct LabelNote {
    place: Place,
    /// Whether a statement has it.
    is_placed: bool,
}

/// What is known of the function that is being read.
#[derive(Drop)]
pub(crate) struct Frame {
    alloc: Global,
    /// What it returns, without qualifiers.
    pub returns: TypeId,
    locals: Vec<LocalName>,
    /// The types of its struct calls.
    calls: Vec<TypeId>,
    /// Its labels in order of first mention.
    labels: IndexMap<Vec<u8>, LabelNote>,
}

/// Whether an object of a type is a block of its own whether or not its address is taken.
fn is_aggregate(types: &TypeTable, kind: TypeId) -> bool {
    match types.node(kind) {
        TypeNode::Qualified { of, .. } => is_unqualified_aggregate(types.node(*of)),
        node => is_unqualified_aggregate(node),
    }
}

/// The same for a type without qualifiers.
fn is_unqualified_aggregate(node: &TypeNode) -> bool {
    match node {
        TypeNode::Array { .. } | TypeNode::Struct(_) | TypeNode::Union(_) => true,
        TypeNode::Void
        | TypeNode::Basic(_)
        | TypeNode::Pointer(_)
        | TypeNode::Function { .. }
        | TypeNode::Enum(_)
        | TypeNode::Qualified { .. } => false,
    }
}

/// The entry block of something of that type. A type that is not complete can't come here and is refused.
fn entry(
    types: &TypeTable,
    of: EntryOf,
    kind: TypeId,
    place: Place,
) -> Result<Entry, CheckRefused> {
    match types.size(kind) {
        Some(size) => Ok(Entry { of, kind, size }),
        None => Err(broken(CheckRule::K18, place)),
    }
}

/// The next number of a list of that length; there are fewer than 2^32.
pub(crate) fn number(len: usize) -> Result<u32, NoMemory> {
    match u32::try_from(len) {
        Ok(number) => Ok(number),
        Err(_) => Err(NoMemory),
    }
}

impl Frame {
    /// A function of which nothing was read. It takes no memory.
    pub fn new(alloc: Global, returns: TypeId) -> Frame {
        Frame {
            alloc,
            returns,
            locals: Vec::new(alloc),
            calls: Vec::new(alloc),
            labels: IndexMap::new(alloc),
        }
    }

    /// No function.
    pub fn idle(alloc: Global) -> Frame {
        Frame::new(alloc, VOID)
    }

    /// A further parameter or automatic name. Gives its index.
    pub fn add_local(&mut self, kind: TypeId) -> Result<u32, NoMemory> {
        let index = number(self.locals.len())?;
        self.locals.push(LocalName {
            kind,
            is_addressed: false,
        })?;
        Ok(index)
    }

    /// Its type is completed.
    pub fn complete_local(&mut self, local: u32, kind: TypeId) {
        if let Some(name) = self.locals.get_mut(local as usize) {
            name.kind = kind;
        }
    }

    /// It stands under `&`.
    pub fn mark_addressed(&mut self, local: u32) {
        if let Some(name) = self.locals.get_mut(local as usize) {
            name.is_addressed = true;
        }
    }

    /// A further struct call. Gives its number.
    pub fn add_call(&mut self, kind: TypeId) -> Result<u32, NoMemory> {
        let index = number(self.calls.len())?;
        self.calls.push(kind)?;
        Ok(index)
    }

    /// The number of a label; what is noted where this is its first mention.
    fn label(&mut self, name: &Name, note: LabelNote) -> Result<u32, NoMemory> {
        match self.labels.get_full(name.as_slice()) {
            Some((index, _, _)) => number(index),
            None => {
                let index = number(self.labels.len())?;
                self.labels
                    .insert(Vec::from_slice(self.alloc, name.as_slice())?, note)?;
                Ok(index)
            }
        }
    }

    /// `goto` names a label. Gives its number.
    pub fn mention_label(&mut self, name: &Name, place: Place) -> Result<u32, NoMemory> {
        self.label(
            name,
            LabelNote {
                place,
                is_placed: false,
            },
        )
    }

    /// Whether a statement has the label.
    fn is_placed(&self, name: &Name) -> bool {
        match self.labels.get(name.as_slice()) {
            Some(note) => note.is_placed,
            None => false,
        }
    }

    /// A statement has a label. Gives its number. K48 at the place where a statement before has it.
    pub fn place_label(&mut self, name: &Name, place: Place) -> Result<u32, CheckRefused> {
        if self.is_placed(name) {
            return Err(broken(CheckRule::K48, place));
        }
        let note = LabelNote {
            place,
            is_placed: true,
        };
        let index = self.label(name, note)?;
        if let Some(label) = self.labels.get_mut(name.as_slice()) {
            label.is_placed = true;
        }
        Ok(index)
    }

    /// How many labels it has. K50 where a `goto` names one that no statement has, at the first such `goto`.
    pub fn label_count(&self) -> Result<u32, CheckRefused> {
        for (_, note) in self.labels.iter() {
            if !note.is_placed {
                return Err(broken(CheckRule::K50, note.place));
            }
        }
        Ok(number(self.labels.len())?)
    }

    /// L08 at the place where it has too many parameters, automatic names and struct calls.
    pub fn is_within(&self, place: Place) -> Result<(), CheckRefused> {
        if self.locals.len().saturating_add(self.calls.len()) > LARGEST {
            return Err(broken(CheckRule::L08, place));
        }
        Ok(())
    }

    /// The types of its parameters and automatic names.
    pub fn local_kinds(&self) -> Result<TypeIds, NoMemory> {
        let mut kinds = TypeIds::new(self.alloc);
        for local in &self.locals {
            kinds.push(local.kind)?;
        }
        Ok(kinds)
    }

    /// The blocks of those parameters and automatic names that are in memory.
    fn local_entries(&self, types: &TypeTable, place: Place) -> Result<Items<Entry>, CheckRefused> {
        let mut entries = Items::new(self.alloc);
        let mut index = 0u32;
        for local in &self.locals {
            if local.is_addressed || is_aggregate(types, local.kind) {
                entries.push(entry(types, EntryOf::Local(index), local.kind, place)?)?;
            }
            index = index.saturating_add(1);
        }
        Ok(entries)
    }

    /// The blocks that its entry makes: of parameters and automatic names in memory, then of struct calls.
    pub fn entries(&self, types: &TypeTable, place: Place) -> Result<Items<Entry>, CheckRefused> {
        let mut entries = self.local_entries(types, place)?;
        let mut index = 0u32;
        for kind in &self.calls {
            entries.push(entry(types, EntryOf::Call(index), *kind, place)?)?;
            index = index.saturating_add(1);
        }
        Ok(entries)
    }
}
