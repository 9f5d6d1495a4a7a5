//! What a type is to an initialiser.

use c_types::{Basic, TypeId, TypeNode, TypeTable};

/// What a type is to an initialiser, its qualifiers aside.
#[derive(Clone, Copy, Debug, PartialEq, Eq)]
pub(crate) enum Sort {
    /// One value, of so many bytes.
    Scalar(u32),
    Array(Elements),
    /// A struct of so many bytes.
    Struct(u32),
    /// A union of so many bytes.
    Union(u32),
    /// It takes no initialiser: void, functions, and structs and unions whose members are not known.
    Neither,
}

/// The elements of an array.
#[derive(Clone, Copy, Debug, PartialEq, Eq)]
pub(crate) struct Elements {
    pub of: TypeId,
    /// How many; 0 where that is unknown.
    pub count: u32,
    /// In bytes.
    pub size: u32,
    /// They are characters, so that a string fills them (C90 6.5.7).
    pub are_characters: bool,
}

/// A type's node, and that of the type that it qualifies where it is qualified.
fn bare_node(types: &TypeTable, id: TypeId) -> &TypeNode {
    match types.node(id) {
        TypeNode::Qualified { of, .. } => types.node(*of),
        node => node,
    }
}

/// A type without its qualifiers.
pub(crate) fn unqualified(types: &TypeTable, id: TypeId) -> TypeId {
    match types.node(id) {
        TypeNode::Qualified { of, .. } => *of,
        _ => id,
    }
}

/// Whether it is a character type (C90 6.1.2.5).
fn is_character(types: &TypeTable, id: TypeId) -> bool {
    match bare_node(types, id) {
        TypeNode::Basic(Basic::Char | Basic::SignedChar | Basic::UnsignedChar) => true,
        _ => false,
    }
}

/// An array of these elements.
fn array_sort(types: &TypeTable, of: TypeId, count: u32) -> Sort {
    match types.size(of) {
        Some(size) => Sort::Array(Elements {
            of,
            count,
            size,
            are_characters: is_character(types, of),
        }),
        None => Sort::Neither,
    }
}

/// A scalar type.
fn scalar_sort(size: Option<u32>) -> Sort {
    match size {
        Some(size) => Sort::Scalar(size),
        None => Sort::Neither,
    }
}

/// A struct, where it is complete.
fn struct_sort(size: Option<u32>) -> Sort {
    match size {
        Some(size) => Sort::Struct(size),
        None => Sort::Neither,
    }
}

/// A union, where it is complete.
fn union_sort(size: Option<u32>) -> Sort {
    match size {
        Some(size) => Sort::Union(size),
        None => Sort::Neither,
    }
}

/// What a type is to an initialiser.
pub(crate) fn sort_of(types: &TypeTable, id: TypeId) -> Sort {
    let size = types.size(id);
    match bare_node(types, id) {
        TypeNode::Basic(_) | TypeNode::Pointer(_) | TypeNode::Enum(_) => scalar_sort(size),
        TypeNode::Array { of, count } => array_sort(types, *of, *count),
        TypeNode::Struct(_) => struct_sort(size),
        TypeNode::Union(_) => union_sort(size),
        TypeNode::Void | TypeNode::Function { .. } | TypeNode::Qualified { .. } => Sort::Neither,
    }
}
