//! Copies of nodes.

use c_types::{Field, Fields, Record, TypeId, TypeIds, TypeNode, TypeTable};
use fsc_base::{Name, NoMemory};
use sqlite_items::Items;
use std::alloc::Global;

/// A copy of a member.
fn copied_field(alloc: Global, field: &Field) -> Result<Field, NoMemory> {
    Ok(Field {
        name: Name::from_slice(alloc, field.name.as_slice())?,
        kind: field.kind,
        first: field.first,
        count: field.count,
    })
}

/// Copies of members.
fn copied_fields(alloc: Global, fields: &[Field]) -> Result<Fields, NoMemory> {
    let mut copies = Fields::new(alloc);
    for field in fields {
        copies.push(copied_field(alloc, field)?)?;
    }
    Ok(copies)
}

/// A copy of a struct or union.
fn copied_record(alloc: Global, record: &Record) -> Result<Record, NoMemory> {
    Ok(Record {
        tag: Name::from_slice(alloc, record.tag.as_slice())?,
        is_complete: record.is_complete,
        fields: copied_fields(alloc, record.fields.as_slice())?,
    })
}

/// A copy of a function type's node.
fn copied_function(
    alloc: Global,
    returns: TypeId,
    is_known: bool,
    parameters: &[TypeId],
    is_variadic: bool,
) -> Result<TypeNode, NoMemory> {
    Ok(TypeNode::Function {
        returns,
        is_known,
        parameters: TypeIds::from_slice(alloc, parameters)?,
        is_variadic,
    })
}

/// A copy of a node, which names the same types. Refused only for want of memory.
pub fn copied_node(alloc: Global, node: &TypeNode) -> Result<TypeNode, NoMemory> {
    match node {
        TypeNode::Void => Ok(TypeNode::Void),
        TypeNode::Basic(basic) => Ok(TypeNode::Basic(*basic)),
        TypeNode::Pointer(to) => Ok(TypeNode::Pointer(*to)),
        TypeNode::Array { of, count } => Ok(TypeNode::Array {
            of: *of,
            count: *count,
        }),
        TypeNode::Function {
            returns,
            is_known,
            parameters,
            is_variadic,
        } => copied_function(
            alloc,
            *returns,
            *is_known,
            parameters.as_slice(),
            *is_variadic,
        ),
        TypeNode::Struct(record) => Ok(TypeNode::Struct(copied_record(alloc, record)?)),
        TypeNode::Union(record) => Ok(TypeNode::Union(copied_record(alloc, record)?)),
        TypeNode::Enum(tag) => Ok(TypeNode::Enum(Name::from_slice(alloc, tag.as_slice())?)),
        TypeNode::Qualified { of, bits } => Ok(TypeNode::Qualified {
            of: *of,
            bits: *bits,
        }),
    }
}

/// Copies of nodes, in their order and so under their numbers. Refused only for want of memory.
pub fn copied_slice(alloc: Global, nodes: &[TypeNode]) -> Result<Items<TypeNode>, NoMemory> {
    let mut copies = Items::new(alloc);
    for node in nodes {
        copies.push(copied_node(alloc, node)?)?;
    }
    Ok(copies)
}

/// Copies of a table's nodes, in their order and so under their numbers. Refused only for want of memory.
pub fn copied_nodes(alloc: Global, table: &TypeTable) -> Result<Items<TypeNode>, NoMemory> {
    let mut copies = Items::new(alloc);
    for index in 0..table.len() {
        match table.get(index) {
            Some(node) => copies.push(copied_node(alloc, node)?)?,
            None => break,
        }
    }
    Ok(copies)
}
