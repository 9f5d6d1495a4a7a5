//! Integral constant expressions and null pointer constants (C90 6.4, 6.2.2.3).

use crate::conversion::bare_node;
use crate::forms::constant;
use c_tree::{Form, Known, TExpr};
use c_types::{Basic, TypeId, TypeNode, TypeTable};

/// How the values of a type are read.
#[derive(Clone, Copy, Debug, PartialEq, Eq)]
enum Reading {
    Signed,
    Unsigned,
    /// It is no integer type.
    No,
}

/// Of an arithmetic type. Those of 1 and 2 bytes fit int, where their values stand extended.
fn reading_in(basic: Basic) -> Reading {
    match basic {
        Basic::Unsigned | Basic::UnsignedLong => Reading::Unsigned,
        Basic::Char | Basic::SignedChar | Basic::UnsignedChar => Reading::Signed,
        Basic::Short | Basic::UnsignedShort => Reading::Signed,
        Basic::Int | Basic::Long => Reading::Signed,
    }
}

/// Of any type, its qualifiers aside.
fn reading_of(types: &TypeTable, kind: TypeId) -> Reading {
    match bare_node(types, kind) {
        TypeNode::Basic(basic) => reading_in(*basic),
        TypeNode::Enum(_) => Reading::Signed,
        TypeNode::Void | TypeNode::Pointer(_) | TypeNode::Array { .. } => Reading::No,
        TypeNode::Function { .. } | TypeNode::Struct(_) | TypeNode::Union(_) => Reading::No,
        TypeNode::Qualified { .. } => Reading::No,
    }
}

/// A number of 32 bits as a signed one.
fn signed(number: u32) -> i64 {
    if number < 0x8000_0000 {
        i64::from(number)
    } else {
        i64::from(number) - 0x1_0000_0000
    }
}

/// A number as a type reads it.
fn read(reading: Reading, number: u32) -> Option<i64> {
    match reading {
        Reading::Signed => Some(signed(number)),
        Reading::Unsigned => Some(i64::from(number)),
        Reading::No => None,
    }
}

/// The value of an integral constant expression (C90 6.4), by the sign of its type; None where it is none. It takes no memory.
pub fn is_integral_constant(types: &TypeTable, e: &TExpr) -> Option<i64> {
    match constant(types, e) {
        Some(Known::Number(number)) => read(reading_of(types, e.kind), number),
        Some(Known::Address { .. }) => None,
        None => None,
    }
}

/// Whether it is an integral constant expression of value 0.
fn is_zero(types: &TypeTable, e: &TExpr) -> bool {
    match is_integral_constant(types, e) {
        Some(number) => number == 0,
        None => false,
    }
}

/// Whether a type is `void *`, without qualifiers.
fn is_void_pointer(types: &TypeTable, kind: TypeId) -> bool {
    match types.node(kind) {
        TypeNode::Pointer(to) => matches!(types.node(*to), TypeNode::Void),
        _ => false,
    }
}

/// Whether it is a null pointer constant (C90 6.2.2.3): an integral constant expression of value 0, or such an expression cast to
/// `void *`. It takes no memory.
pub fn is_null(types: &TypeTable, e: &TExpr) -> bool {
    match &e.form {
        Form::Convert(a, _) => {
            if is_void_pointer(types, e.kind) {
                is_zero(types, a.get())
            } else {
                is_zero(types, e)
            }
        }
        _ => is_zero(types, e),
    }
}
