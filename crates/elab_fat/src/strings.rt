//! The types of string literals, arrays of const char (C90 6.1.4): writing to one has no defined meaning, and is refused.

use c_types::{CHAR, TypeId, TypeNode};
use elab_setting::{ElaborateNo, count_of};
use indexmap::IndexMap;
use sqlite_items::Items;
use std::alloc::Global;

/// The bit of const among the qualifiers.
const CONST: u32 = 1;

/// A unit's types, behind which those of its string literals are put where they are not there.
#[derive(Drop)]
pub(crate) struct StringTypes {
    nodes: Items<TypeNode>,
    /// Const char.
    element: Option<TypeId>,
    /// The arrays of it, by their lengths.
    arrays: IndexMap<u32, TypeId>,
}

/// Where const char stands first.
fn element_in(nodes: &[TypeNode]) -> Option<TypeId> {
    let mut found = None;
    let mut id = 0u32;
    for node in nodes {
        if found.is_none() && is_element(node) {
            found = Some(id);
        }
        id = id.saturating_add(1);
    }
    found
}

/// Whether a type is const char.
fn is_element(node: &TypeNode) -> bool {
    match node {
        TypeNode::Qualified { of, bits } => *of == CHAR && *bits == CONST,
        _ => false,
    }
}

/// The length of an array of these elements.
fn length_of(node: &TypeNode, element: TypeId) -> Option<u32> {
    match node {
        TypeNode::Array { of, count } => { if *of == element { Some(*count) } else { None } }
        _ => None,
    }
}

/// The arrays of these elements, by their lengths.
fn arrays_in(
    alloc: Global,
    nodes: &[TypeNode],
    element: TypeId,
) -> Result<IndexMap<u32, TypeId>, ElaborateNo> {
    let mut arrays = IndexMap::new(alloc);
    let mut id = 0u32;
    for node in nodes {
        put_array(&mut arrays, length_of(node, element), id)?;
        id = id.saturating_add(1);
    }
    Ok(arrays)
}

/// Puts an array of that length, unless there is one.
fn put_array(
    arrays: &mut IndexMap<u32, TypeId>,
    length: Option<u32>,
    id: TypeId,
) -> Result<(), ElaborateNo> {
    if let Some(length) = length {
        if arrays.get(&length).is_none() {
            arrays.insert(length, id)?;
        }
    }
    Ok(())
}

impl StringTypes {
    /// Those of a unit.
    pub fn new(alloc: Global, nodes: Items<TypeNode>) -> Result<StringTypes, ElaborateNo> {
        let element = element_in(nodes.as_slice());
        let arrays = match element {
            Some(element) => arrays_in(alloc, nodes.as_slice(), element)?,
            None => IndexMap::new(alloc),
        };
        Ok(StringTypes {
            nodes,
            element,
            arrays,
        })
    }

    /// A type behind the others. Gives its number.
    fn push(&mut self, node: TypeNode) -> Result<TypeId, ElaborateNo> {
        let id = count_of(self.nodes.len());
        self.nodes.push(node)?;
        Ok(id)
    }

    /// Const char.
    fn element(&mut self) -> Result<TypeId, ElaborateNo> {
        match self.element {
            Some(element) => Ok(element),
            None => {
                let element = self.push(TypeNode::Qualified {
                    of: CHAR,
                    bits: CONST,
                })?;
                self.element = Some(element);
                Ok(element)
            }
        }
    }

    /// The type of a string literal of so many bytes.
    pub fn array(&mut self, length: u32) -> Result<TypeId, ElaborateNo> {
        let element = self.element()?;
        match self.arrays.get(&length).copied() {
            Some(array) => Ok(array),
            None => {
                let array = self.push(TypeNode::Array {
                    of: element,
                    count: length,
                })?;
                self.arrays.insert(length, array)?;
                Ok(array)
            }
        }
    }

    /// All types.
    pub fn into_nodes(self) -> Items<TypeNode> {
        let StringTypes { nodes, .. } = self;
        nodes
    }
}
