//! The types of several units as one graph.

use crate::form::TypeForm;
use c_types::{TypeId, TypeNode};
use fsc_base::NoMemory;
use indexmap::IndexMap;
use std::alloc::Global;

/// A node of the graph: its class so far, where its parts begin among those of all nodes, and whether it is a struct or union.
#[derive(Clone, Copy)]
pub(crate) struct GraphNode {
    pub class: u32,
    pub parts: usize,
    pub is_record: bool,
}

/// The types of several units. The node with index 0 is void; what a table does not have is read as that.
#[derive(Drop)]
pub struct TypeGraph {
    pub(crate) alloc: Global,
    pub(crate) nodes: Vec<GraphNode>,
    /// The parts of all nodes, by their indices in the graph.
    pub(crate) parts: Vec<u32>,
    /// Where the types of each unit begin.
    pub(crate) units: Vec<u32>,
    forms: IndexMap<TypeForm, u32>,
}

fn is_record(node: &TypeNode) -> bool {
    match node {
        TypeNode::Struct(_) | TypeNode::Union(_) => true,
        _ => false,
    }
}

/// An index as a number of 32 bits. More nodes than that are taken for want of memory.
pub(crate) fn number(index: usize) -> Result<u32, NoMemory> {
    u32::try_from(index).map_err(|_| NoMemory)
}

impl TypeGraph {
    /// No units. Refused only for want of memory.
    pub fn new(alloc: Global) -> Result<TypeGraph, NoMemory> {
        let mut graph = TypeGraph {
            alloc,
            nodes: Vec::new(alloc),
            parts: Vec::new(alloc),
            units: Vec::new(alloc),
            forms: IndexMap::new(alloc),
        };
        graph.push(&TypeNode::Void)?;
        Ok(graph)
    }

    /// The number of a form, which is new if it was not there.
    fn class(&mut self, form: TypeForm) -> Result<u32, NoMemory> {
        if let Some(class) = self.forms.get(&form) {
            return Ok(*class);
        }
        let class = number(self.forms.len())?;
        self.forms.insert(form, class)?;
        Ok(class)
    }

    /// One more node, whose parts follow.
    fn push(&mut self, node: &TypeNode) -> Result<(), NoMemory> {
        let form = TypeForm::of(self.alloc, node)?;
        let class = self.class(form)?;
        self.nodes.push(GraphNode {
            class,
            parts: self.parts.len(),
            is_record: is_record(node),
        })?;
        Ok(())
    }

    /// A part of a node, of a table that begins at an index and has so many nodes.
    fn part(&mut self, first: u32, count: usize, id: TypeId) -> Result<(), NoMemory> {
        let index = if (id as usize) < count {
            first.saturating_add(id)
        } else {
            0
        };
        self.parts.push(index)?;
        Ok(())
    }

    fn fields(
        &mut self,
        first: u32,
        count: usize,
        fields: &[c_types::Field],
    ) -> Result<(), NoMemory> {
        'fields: for field in fields {
            self.part(first, count, field.kind)?;
        }
        Ok(())
    }

    fn ids(&mut self, first: u32, count: usize, ids: &[TypeId]) -> Result<(), NoMemory> {
        'ids: for id in ids {
            self.part(first, count, *id)?;
        }
        Ok(())
    }

    /// The parts of a node.
    fn parts_of(&mut self, first: u32, count: usize, node: &TypeNode) -> Result<(), NoMemory> {
        match node {
            TypeNode::Pointer(to) => self.part(first, count, *to),
            TypeNode::Array { of, .. } => self.part(first, count, *of),
            TypeNode::Qualified { of, .. } => self.part(first, count, *of),
            TypeNode::Function {
                returns,
                parameters,
                ..
            } => {
                self.part(first, count, *returns)?;
                self.ids(first, count, parameters.as_slice())
            }
            TypeNode::Struct(record) => self.fields(first, count, record.fields.as_slice()),
            TypeNode::Union(record) => self.fields(first, count, record.fields.as_slice()),
            TypeNode::Void | TypeNode::Basic(_) | TypeNode::Enum(_) => Ok(()),
        }
    }

    fn add_node(&mut self, first: u32, count: usize, node: &TypeNode) -> Result<(), NoMemory> {
        self.push(node)?;
        self.parts_of(first, count, node)
    }

    /// The types of one more unit. Refused only for want of memory.
    pub fn add(&mut self, nodes: &[TypeNode]) -> Result<(), NoMemory> {
        let first = number(self.nodes.len())?;
        self.units.push(first)?;
        'nodes: for node in nodes {
            self.add_node(first, nodes.len(), node)?;
        }
        Ok(())
    }
}
