//! Comparisons (C90 6.3.8, 6.3.9).

use crate::fitting::is_void_with;
use crate::operand::{Operand, Pair, Target, pair_of};
use crate::operator::{Signs, same};
use c_conversion::{Typed, binary, convert, is_unsigned, usual};
use c_ops::Operator;
use c_types::{INT, TypeTable};
use check_refusal::{CheckRefused, CheckRule, broken};
use fsc_base::{NoMemory, Place};
use std::alloc::Global;

/// How two values are compared.
#[derive(Clone, Copy)]
pub enum Comparison {
    Integers,
    /// As the pointers that they are.
    Agree,
    /// The right one is converted to the left one's type.
    ToLeft,
    /// The left one is converted to the right one's type.
    ToRight,
    Wrong,
}

/// How `==` and `!=` compare two pointers: that agree, one of which is a null pointer constant, or one of which points to void and
/// the other to no function.
fn equality_of_pointers(pair: Pair, left: Target, right: Target) -> Comparison {
    if pair.agree {
        Comparison::Agree
    } else if pair.right_is_null || !pair.left_is_null && is_void_with(left, right) {
        Comparison::ToLeft
    } else if pair.left_is_null || is_void_with(right, left) {
        Comparison::ToRight
    } else {
        Comparison::Wrong
    }
}

/// How `==` and `!=` compare these: integers, pointers, or a pointer and a null pointer constant.
pub fn equality_of(pair: Pair) -> Comparison {
    match (pair.left, pair.right) {
        (Operand::Integer, Operand::Integer) => Comparison::Integers,
        (Operand::Pointer { target: left, .. }, Operand::Pointer { target: right, .. }) => {
            equality_of_pointers(pair, left, right)
        }
        (Operand::Pointer { .. }, Operand::Integer) => {
            if pair.right_is_null {
                Comparison::ToLeft
            } else {
                Comparison::Wrong
            }
        }
        (Operand::Integer, Operand::Pointer { .. }) => {
            if pair.left_is_null {
                Comparison::ToRight
            } else {
                Comparison::Wrong
            }
        }
        _ => Comparison::Wrong,
    }
}

/// How `< > <= >=` compare these: integers, or pointers that agree and point to no function.
pub fn relation_of(pair: Pair) -> Comparison {
    match (pair.left, pair.right) {
        (Operand::Integer, Operand::Integer) => Comparison::Integers,
        (Operand::Pointer { target, .. }, Operand::Pointer { .. }) => {
            if pair.agree && target != Target::Function {
                Comparison::Agree
            } else {
                Comparison::Wrong
            }
        }
        _ => Comparison::Wrong,
    }
}

/// Two integers compared in their common type.
fn compared_integers(
    alloc: Global,
    types: &TypeTable,
    signs: Signs,
    left: Typed,
    right: Typed,
    place: Place,
) -> Result<Typed, NoMemory> {
    let kind = usual(types, &left, &right);
    let op = signs.of(is_unsigned(types, kind));
    let left = convert(alloc, types, left, kind)?;
    let right = convert(alloc, types, right, kind)?;
    binary(alloc, op, left, right, INT, place)
}

/// A comparison whose right operand is converted to the left one's type.
fn compared_as_left(
    alloc: Global,
    types: &TypeTable,
    op: Operator,
    left: Typed,
    right: Typed,
    place: Place,
) -> Result<Typed, NoMemory> {
    let right = convert(alloc, types, right, left.tree.kind)?;
    binary(alloc, op, left, right, INT, place)
}

/// A comparison whose left operand is converted to the right one's type.
fn compared_as_right(
    alloc: Global,
    types: &TypeTable,
    op: Operator,
    left: Typed,
    right: Typed,
    place: Place,
) -> Result<Typed, NoMemory> {
    let left = convert(alloc, types, left, right.tree.kind)?;
    binary(alloc, op, left, right, INT, place)
}

/// Two values compared so. K29 where they can't be.
fn compared(
    alloc: Global,
    types: &TypeTable,
    how: Comparison,
    signs: Signs,
    left: Typed,
    right: Typed,
    place: Place,
) -> Result<Typed, CheckRefused> {
    let op = signs.unsigned;
    Ok(match how {
        Comparison::Integers => compared_integers(alloc, types, signs, left, right, place)?,
        Comparison::Agree => binary(alloc, op, left, right, INT, place)?,
        Comparison::ToLeft => compared_as_left(alloc, types, op, left, right, place)?,
        Comparison::ToRight => compared_as_right(alloc, types, op, left, right, place)?,
        Comparison::Wrong => return Err(broken(CheckRule::K29, place)),
    })
}

/// `a == b`, `a != b`. K29 where the operands are wrong.
pub fn equality(
    alloc: Global,
    types: &TypeTable,
    op: Operator,
    left: Typed,
    right: Typed,
    place: Place,
) -> Result<Typed, CheckRefused> {
    let how = equality_of(pair_of(alloc, types, &left.tree, &right.tree)?);
    compared(alloc, types, how, same(op), left, right, place)
}

/// `a < b`, `a > b`, `a <= b`, `a >= b`. K29 where the operands are wrong.
pub fn relation(
    alloc: Global,
    types: &TypeTable,
    signs: Signs,
    left: Typed,
    right: Typed,
    place: Place,
) -> Result<Typed, CheckRefused> {
    let how = relation_of(pair_of(alloc, types, &left.tree, &right.tree)?);
    compared(alloc, types, how, signs, left, right, place)
}
