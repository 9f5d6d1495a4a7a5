//! What types are, their qualifiers aside.

use c_types::{Basic, TypeId, TypeNode, TypeTable};
use fsc_base::Width;

/// What a type is, its qualifiers aside (C90 6.1.2.5).
#[derive(Clone, Copy, Debug, PartialEq, Eq)]
pub enum Sort {
    Void,
    /// An arithmetic type or an enum.
    Integer { width: Width, is_signed: bool },
    /// With the type that it points to.
    Pointer(TypeId),
    /// With the type of its elements.
    Array(TypeId),
    /// A struct or union, complete or not.
    Record,
    /// With the type that it returns.
    Function(TypeId),
}

/// The type without its own qualifiers (C90 6.1.2.5). An array of qualified elements stays as it is.
pub fn unqualified(types: &TypeTable, kind: TypeId) -> TypeId {
    match types.node(kind) {
        TypeNode::Qualified { of, .. } => *of,
        _ => kind,
    }
}

/// The type's own qualifiers: 1 for const, 2 for volatile, 3 for both, else 0.
pub fn own_qualifiers(types: &TypeTable, kind: TypeId) -> u32 {
    match types.node(kind) {
        TypeNode::Qualified { bits, .. } => *bits,
        _ => 0,
    }
}

/// Width and sign of an arithmetic type. A plain `char` has no sign.
fn arithmetic(basic: Basic) -> Sort {
    let (width, is_signed) = match basic {
        Basic::Char | Basic::UnsignedChar => (Width::One, false),
        Basic::SignedChar => (Width::One, true),
        Basic::Short => (Width::Two, true),
        Basic::UnsignedShort => (Width::Two, false),
        Basic::Int | Basic::Long => (Width::Four, true),
        Basic::Unsigned | Basic::UnsignedLong => (Width::Four, false),
    };
    Sort::Integer { width, is_signed }
}

/// What a node is; a qualified one is none of these and counts as void.
fn bare_sort(node: &TypeNode) -> Sort {
    match node {
        TypeNode::Void => Sort::Void,
        TypeNode::Basic(basic) => arithmetic(*basic),
        TypeNode::Enum(_) => Sort::Integer {
            width: Width::Four,
            is_signed: true,
        },
        TypeNode::Pointer(to) => Sort::Pointer(*to),
        TypeNode::Array { of, .. } => Sort::Array(*of),
        TypeNode::Function { returns, .. } => Sort::Function(*returns),
        TypeNode::Struct(_) | TypeNode::Union(_) => Sort::Record,
        TypeNode::Qualified { .. } => Sort::Void,
    }
}

/// What a type is, its qualifiers aside. It takes no memory.
pub fn sort_of(types: &TypeTable, kind: TypeId) -> Sort {
    bare_sort(types.node(unqualified(types, kind)))
}

/// Whether it is an arithmetic type or an enum.
pub fn is_integer(types: &TypeTable, kind: TypeId) -> bool {
    matches!(sort_of(types, kind), Sort::Integer { .. })
}

/// Whether it is scalar: an arithmetic type, an enum or a pointer.
pub fn is_scalar(types: &TypeTable, kind: TypeId) -> bool {
    matches!(
        sort_of(types, kind),
        Sort::Integer { .. } | Sort::Pointer(_)
    )
}

/// Whether words of this type are compared and divided as unsigned ones: it is an unsigned type or a pointer.
pub fn is_unsigned(types: &TypeTable, kind: TypeId) -> bool {
    match sort_of(types, kind) {
        Sort::Integer { is_signed, .. } => !is_signed,
        _ => true,
    }
}

/// Whether it is a complete object type, whose size is known.
pub fn is_complete(types: &TypeTable, kind: TypeId) -> bool {
    types.size(kind).is_some()
}
