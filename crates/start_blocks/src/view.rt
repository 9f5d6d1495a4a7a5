//! What linking sees of a unit.

use c_ops::{Definition, Linkage};
use c_types::TypeId;
use fsc_base::{Name, Width};
use sqlite_items::Items;

/// What a piece of an object holds at the start.
#[derive(Clone, Copy, Debug, PartialEq, Eq)]
pub enum LinkValue {
    Number(u32),
    /// The address that is so many bytes behind what a symbol of the unit names.
    Symbol { symbol: u32, offset: u32 },
    /// The address that is so many bytes behind the start of an object of the unit.
    Object { object: u32, offset: u32 },
}

/// A value that an object holds at the start, at an offset from its start.
#[derive(Clone, Copy, Debug, PartialEq, Eq)]
pub struct LinkPiece {
    pub offset: u32,
    pub width: Width,
    pub value: LinkValue,
}

/// An object that is there from the start: its size in bytes, whether it refuses writes, and what stands in it.
#[derive(Debug, Drop)]
pub struct LinkObject {
    pub size: u32,
    pub is_sealed: bool,
    pub pieces: Items<LinkPiece>,
}

/// A name with linkage (C90 6.1.2.2).
#[derive(Debug, Drop)]
pub struct LinkSymbol {
    pub name: Name,
    pub linkage: Linkage,
    pub kind: TypeId,
    /// Whether an expression outside `sizeof` uses it.
    pub is_used: bool,
    pub definition: Definition,
}

/// A unit: its symbols, in order of their first declarations; how many functions it defines; its objects, in order of their first
/// tokens; and its numbers of nodes and of struct and union types.
#[derive(Debug, Drop)]
pub struct LinkView {
    pub symbols: Items<LinkSymbol>,
    pub functions: u32,
    pub objects: Items<LinkObject>,
    pub nodes: u64,
    pub records: u64,
}

impl LinkSymbol {
    /// Whether it means the same in all units.
    pub fn is_external(&self) -> bool {
        match self.linkage {
            Linkage::External => true,
            Linkage::Internal => false,
        }
    }

    /// Whether its unit defines it.
    pub fn is_defined(&self) -> bool {
        match self.definition {
            Definition::Missing => false,
            Definition::Function(_) | Definition::Object(_) => true,
        }
    }

    /// Whether its unit defines it as a function.
    pub fn is_function(&self) -> bool {
        match self.definition {
            Definition::Function(_) => true,
            Definition::Missing | Definition::Object(_) => false,
        }
    }

    /// Whether it is a definition of this name with external linkage.
    pub fn defines(&self, name: &[u8]) -> bool {
        self.is_external() && self.is_defined() && self.name.as_slice() == name
    }
}
