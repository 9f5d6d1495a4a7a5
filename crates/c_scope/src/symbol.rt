//! Symbols while a unit is read.

use c_tree::Linkage;
use c_types::TypeId;
use fsc_base::{Name, NoMemory, Place};
use std::alloc::Global;

/// What defines a symbol.
#[derive(Clone, Copy, Debug, PartialEq, Eq)]
pub(crate) enum Defined {
    Nothing,
    /// The function with this index.
    Function(u32),
    /// Its draft.
    Object,
}

/// A symbol, and what is known of it.
#[derive(Drop)]
pub(crate) struct SymbolNote {
    pub name: Name,
    pub linkage: Linkage,
    pub kind: TypeId,
    pub is_used: bool,
    pub defined: Defined,
    /// Its draft, where it is an object.
    pub draft: Option<u32>,
    /// Where its first declarator stands.
    pub place: Place,
    /// Whether a declaration at file scope defines it where nothing else does (C90 6.7.2).
    pub is_tentative: bool,
    /// The promoted types of the parameters of its definition, where that has a list of names.
    pub promoted: Option<Vec<TypeId>>,
}

/// The symbols of a name.
#[derive(Drop)]
pub(crate) struct LinkedSymbols {
    /// Those with external linkage, in order.
    pub external: Vec<u32>,
    pub internal: Option<u32>,
}

impl LinkedSymbols {
    pub fn new(alloc: Global) -> LinkedSymbols {
        LinkedSymbols {
            external: Vec::new(alloc),
            internal: None,
        }
    }

    /// Adds a symbol.
    pub fn add(&mut self, linkage: Linkage, symbol: u32) -> Result<(), NoMemory> {
        match linkage {
            Linkage::External => {
                self.external.push(symbol)?;
                Ok(())
            }
            Linkage::Internal => {
                self.internal = Some(symbol);
                Ok(())
            }
        }
    }
}
