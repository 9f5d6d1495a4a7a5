//! What rules look at of an operand and of two.

use c_const::is_null;
use c_conversion::{Sort, sort_of, unqualified};
use c_tree::TExpr;
use c_types::{TypeId, TypeTable};
use fsc_base::NoMemory;
use std::alloc::Global;
use type_relations::compatible_in;

/// What a pointer points to, qualifiers aside.
#[derive(Clone, Copy, PartialEq, Eq)]
pub enum Target {
    Void,
    Function,
    /// An object type that is not complete here.
    Incomplete,
    /// A complete object type, with its size in bytes.
    Object(u32),
}

/// What the type of a value is, qualifiers aside.
#[derive(Clone, Copy, PartialEq, Eq)]
pub enum Operand {
    Void,
    Integer,
    /// With the type that it points to.
    Pointer { to: TypeId, target: Target },
    Record,
    /// An array that did not become a pointer, or a function.
    Other,
}

/// Two values, or a type and the value that is to be one of it.
#[derive(Clone, Copy)]
pub struct Pair {
    pub left: Operand,
    pub right: Operand,
    /// The right one is a pointer, and the left one a null pointer constant (C90 6.2.2.3).
    pub left_is_null: bool,
    pub right_is_null: bool,
    /// Both are pointers, and what they point to is compatible, its qualifiers aside (C90 6.1.2.6).
    pub agree: bool,
    /// Both are of one type, their qualifiers aside.
    pub is_same: bool,
}

/// What a pointer to this type points to. It takes no memory.
pub fn target_of(types: &TypeTable, to: TypeId) -> Target {
    match sort_of(types, to) {
        Sort::Void => Target::Void,
        Sort::Function(_) => Target::Function,
        Sort::Integer { .. } | Sort::Pointer(_) | Sort::Array(_) | Sort::Record => {
            match types.size(to) {
                Some(size) => Target::Object(size),
                None => Target::Incomplete,
            }
        }
    }
}

/// What a value of this type is. It takes no memory.
pub fn operand_of(types: &TypeTable, kind: TypeId) -> Operand {
    match sort_of(types, kind) {
        Sort::Void => Operand::Void,
        Sort::Integer { .. } => Operand::Integer,
        Sort::Pointer(to) => Operand::Pointer {
            to,
            target: target_of(types, to),
        },
        Sort::Record => Operand::Record,
        Sort::Array(_) | Sort::Function(_) => Operand::Other,
    }
}

/// Whether it is a pointer.
fn is_pointer(operand: Operand) -> bool {
    matches!(operand, Operand::Pointer { .. })
}

/// Whether both are pointers to compatible types, qualifiers aside.
fn agree(
    alloc: Global,
    types: &TypeTable,
    left: Operand,
    right: Operand,
) -> Result<bool, NoMemory> {
    match (left, right) {
        (Operand::Pointer { to: left, .. }, Operand::Pointer { to: right, .. }) => compatible_in(
            alloc,
            types,
            unqualified(types, left),
            unqualified(types, right),
        ),
        _ => Ok(false),
    }
}

/// Two values by their types alone.
fn pair_of_types(
    alloc: Global,
    types: &TypeTable,
    left: TypeId,
    right: TypeId,
) -> Result<Pair, NoMemory> {
    let is_same = unqualified(types, left) == unqualified(types, right);
    let left = operand_of(types, left);
    let right = operand_of(types, right);
    Ok(Pair {
        left,
        right,
        left_is_null: false,
        right_is_null: false,
        agree: agree(alloc, types, left, right)?,
        is_same,
    })
}

/// Two values. Refused only for want of memory.
pub fn pair_of(
    alloc: Global,
    types: &TypeTable,
    left: &TExpr,
    right: &TExpr,
) -> Result<Pair, NoMemory> {
    let pair = pair_of_types(alloc, types, left.kind, right.kind)?;
    Ok(Pair {
        left_is_null: is_pointer(pair.right) && is_null(types, left),
        right_is_null: is_pointer(pair.left) && is_null(types, right),
        ..pair
    })
}

/// A type, and a value that is to be one of it. Refused only for want of memory.
pub fn fitting_of(
    alloc: Global,
    types: &TypeTable,
    target: TypeId,
    e: &TExpr,
) -> Result<Pair, NoMemory> {
    let pair = pair_of_types(alloc, types, target, e.kind)?;
    Ok(Pair {
        right_is_null: is_pointer(pair.left) && is_null(types, e),
        ..pair
    })
}
