//! Which objects refuse writes: string literals, and objects of a `const` type (C90 6.1.4, 6.5.3).

use c_tree::TypedObject;
use c_types::{TypeId, TypeNode, TypeTable};

/// Whether the bits of a qualified type have that of `const`.
fn has_const(bits: u32) -> bool {
    bits % 2 == 1
}

/// Whether a type is const-qualified, or an array, at any depth, of such a type.
pub fn is_const(types: &TypeTable, id: TypeId) -> bool {
    let mut id = id;
    'depth: for _ in 0..types.len() {
        match types.node(id) {
            TypeNode::Array { of, .. } => id = *of,
            TypeNode::Qualified { of, bits } => {
                if has_const(*bits) {
                    return true;
                }
                id = *of;
            }
            _ => return false,
        }
    }
    false
}

/// Whether an object refuses writes. A string literal has no name.
pub(crate) fn is_sealed(types: &TypeTable, object: &TypedObject) -> bool {
    object.name.as_slice().is_empty() || is_const(types, object.kind)
}
