//! The shapes of a unit: one narrow word, one fat word, and then that of each struct and union of its types.

use crate::locals::count_of;
use crate::refusal::ElaborateNo;
use c_types::{Basic, TypeId, TypeNode, TypeTable};
use fsc_base::{Width, WordKind};
use sqlite_items::Items;
use std::alloc::Global;
use type_desc::Kinds;

/// The index of the shape of one narrow word.
const NARROW: u32 = 0;

/// The index of the shape of one fat word.
const FAT: u32 = 1;

/// The shapes of a unit, and for each of its types the index of its shape. An array has that of its elements; an incomplete
/// struct or union, void and a function are one narrow word.
#[derive(Drop)]
pub struct TypeShapes {
    alloc: Global,
    pub of_types: Vec<u32>,
    /// The type is const-qualified, or an array of such a type at any depth.
    pub are_const: Vec<bool>,
    pub shapes: Items<Kinds>,
}

/// A type without its qualifiers. A qualified type of a table qualifies one that is none.
pub fn bare(types: &TypeTable, id: TypeId) -> &TypeNode {
    match types.node(id) {
        TypeNode::Qualified { of, .. } => types.node(*of),
        node => node,
    }
}

/// Whether a type is a struct or union.
pub fn is_record(node: &TypeNode) -> bool {
    matches!(node, TypeNode::Struct(_) | TypeNode::Union(_))
}

/// The width and sign of a type of 1 or 2 bytes; None of every other.
pub fn narrow_type(node: &TypeNode) -> Option<(Width, bool)> {
    match node {
        TypeNode::Basic(basic) => narrow_basic(*basic),
        _ => None,
    }
}

/// The same of an arithmetic type.
fn narrow_basic(basic: Basic) -> Option<(Width, bool)> {
    match basic {
        Basic::Char | Basic::UnsignedChar => Some((Width::One, false)),
        Basic::SignedChar => Some((Width::One, true)),
        Basic::Short => Some((Width::Two, true)),
        Basic::UnsignedShort => Some((Width::Two, false)),
        Basic::Int | Basic::Unsigned | Basic::Long | Basic::UnsignedLong => None,
    }
}

/// The width of a scalar of so many bytes.
pub fn width_of(size: u32) -> Width {
    match size {
        1 => Width::One,
        2 => Width::Two,
        _ => Width::Four,
    }
}

impl TypeShapes {
    /// Those of a table. It takes as many steps as the table has types, and their shapes words. Refused with `Misfit` where an
    /// array or a qualified type names a type that is not before it.
    pub fn of(alloc: Global, types: &TypeTable) -> Result<TypeShapes, ElaborateNo> {
        let mut shapes = TypeShapes {
            alloc,
            of_types: Vec::new(alloc),
            are_const: Vec::new(alloc),
            shapes: Items::new(alloc),
        };
        shapes.push(&[WordKind::Narrow])?;
        shapes.push(&[WordKind::Fat])?;
        for id in 0..types.len() {
            shapes.add(types, id)?;
        }
        Ok(shapes)
    }

    /// One more shape. Gives its index.
    fn push(&mut self, kinds: &[WordKind]) -> Result<u32, ElaborateNo> {
        let index = count_of(self.shapes.len());
        self.shapes.push(Kinds::from_slice(self.alloc, kinds)?)?;
        Ok(index)
    }

    /// The next type.
    fn add(&mut self, types: &TypeTable, id: usize) -> Result<(), ElaborateNo> {
        let Some(node) = types.get(id) else {
            return Err(ElaborateNo::Misfit);
        };
        let shape = self.shape(types, count_of(id), node)?;
        let is_const = self.is_const_node(node);
        self.of_types.push(shape)?;
        self.are_const.push(is_const)?;
        Ok(())
    }

    /// The index of the next type's shape.
    fn shape(&mut self, types: &TypeTable, id: u32, node: &TypeNode) -> Result<u32, ElaborateNo> {
        match node {
            TypeNode::Void | TypeNode::Function { .. } => Ok(NARROW),
            TypeNode::Pointer(_) | TypeNode::Enum(_) => Ok(FAT),
            TypeNode::Basic(basic) => Ok(match narrow_basic(*basic) {
                Some(_) => NARROW,
                None => FAT,
            }),
            TypeNode::Array { of, .. } | TypeNode::Qualified { of, .. } => self.known(*of),
            TypeNode::Struct(_) | TypeNode::Union(_) => self.add_record(types, id),
        }
    }

    /// That of a type before.
    fn known(&self, id: TypeId) -> Result<u32, ElaborateNo> {
        match self.of_types.get(id as usize) {
            Some(shape) => Ok(*shape),
            None => Err(ElaborateNo::Misfit),
        }
    }

    /// The shape of a struct or union.
    fn add_record(&mut self, types: &TypeTable, id: u32) -> Result<u32, ElaborateNo> {
        match types.layout(id) {
            Some(layout) => self.add_kinds(layout.kinds.as_slice()),
            None => self.push(&[WordKind::Narrow]),
        }
    }

    /// The shape of these words; one without words has no access, and is one narrow word.
    fn add_kinds(&mut self, kinds: &[WordKind]) -> Result<u32, ElaborateNo> {
        if kinds.is_empty() {
            self.push(&[WordKind::Narrow])
        } else {
            self.push(kinds)
        }
    }

    /// Whether the next type is const.
    fn is_const_node(&self, node: &TypeNode) -> bool {
        match node {
            TypeNode::Array { of, .. } => self.is_const(*of),
            TypeNode::Qualified { of, bits } => *bits % 2 == 1 || self.is_const(*of),
            _ => false,
        }
    }

    /// The shapes alone.
    pub fn into_shapes(self) -> Items<Kinds> {
        let TypeShapes { shapes, .. } = self;
        shapes
    }

    /// Whether a type is const-qualified, or an array of such a type at any depth.
    pub fn is_const(&self, id: TypeId) -> bool {
        match self.are_const.get(id as usize) {
            Some(is_const) => *is_const,
            None => false,
        }
    }
}
