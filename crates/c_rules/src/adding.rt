//! `+` and `-` (C90 6.3.6).

use crate::computing::on_common;
use crate::operand::{Operand, Pair, Target, operand_of, pair_of};
use crate::operator::same;
use c_conversion::{Typed, pointer_add, pointer_difference, pointer_minus, promoted};
use c_ops::Operator;
use c_tree::Side;
use c_types::TypeTable;
use check_refusal::{CheckRefused, CheckRule, broken};
use fsc_base::Place;
use std::alloc::Global;

/// What `+` does; with the size in bytes of what the pointer points to.
#[derive(Clone, Copy)]
pub enum Sum {
    Integers,
    Pointer(Side, u32),
    Wrong,
}

/// What `-` does; with the size in bytes of what the pointer points to.
#[derive(Clone, Copy)]
pub enum Difference {
    Integers,
    /// A pointer minus an integer.
    Minus(u32),
    /// A pointer minus a pointer.
    Between(u32),
    Wrong,
}

/// What `+` does to these: integers, or a pointer to a complete object type and an integer in either order.
pub fn sum_of(left: Operand, right: Operand) -> Sum {
    match (left, right) {
        (Operand::Integer, Operand::Integer) => Sum::Integers,
        (
            Operand::Pointer {
                target: Target::Object(size),
                ..
            },
            Operand::Integer,
        ) => Sum::Pointer(Side::Left, size),
        (
            Operand::Integer,
            Operand::Pointer {
                target: Target::Object(size),
                ..
            },
        ) => Sum::Pointer(Side::Right, size),
        _ => Sum::Wrong,
    }
}

/// What `-` does to a pointer to a complete object type and this.
fn difference_from(pair: Pair, size: u32) -> Difference {
    match pair.right {
        Operand::Integer => Difference::Minus(size),
        Operand::Pointer {
            target: Target::Object(_),
            ..
        } => {
            if pair.agree {
                Difference::Between(size)
            } else {
                Difference::Wrong
            }
        }
        _ => Difference::Wrong,
    }
}

/// What `-` does to these: integers, a pointer to a complete object type and an integer, or two such pointers that agree.
pub fn difference_of(pair: Pair) -> Difference {
    match (pair.left, pair.right) {
        (Operand::Integer, Operand::Integer) => Difference::Integers,
        (
            Operand::Pointer {
                target: Target::Object(size),
                ..
            },
            _,
        ) => difference_from(pair, size),
        _ => Difference::Wrong,
    }
}

/// A pointer plus a promoted integer.
fn pointer_sum(
    alloc: Global,
    types: &TypeTable,
    left: Typed,
    right: Typed,
    pointer: Side,
    size: u32,
    place: Place,
) -> Result<Typed, CheckRefused> {
    let (left, right) = match pointer {
        Side::Left => (left, promoted(alloc, types, right)?),
        Side::Right => (promoted(alloc, types, left)?, right),
    };
    Ok(pointer_add(alloc, left, right, pointer, size, place)?)
}

/// `a + b`. K29 where the operands are wrong.
pub fn addition(
    alloc: Global,
    types: &TypeTable,
    left: Typed,
    right: Typed,
    place: Place,
) -> Result<Typed, CheckRefused> {
    let sum = sum_of(
        operand_of(types, left.tree.kind),
        operand_of(types, right.tree.kind),
    );
    match sum {
        Sum::Integers => on_common(alloc, types, same(Operator::Add), left, right, place),
        Sum::Pointer(pointer, size) => {
            pointer_sum(alloc, types, left, right, pointer, size, place)
        }
        Sum::Wrong => Err(broken(CheckRule::K29, place)),
    }
}

/// A pointer minus a promoted integer.
fn pointer_less(
    alloc: Global,
    types: &TypeTable,
    pointer: Typed,
    index: Typed,
    size: u32,
    place: Place,
) -> Result<Typed, CheckRefused> {
    let index = promoted(alloc, types, index)?;
    Ok(pointer_minus(alloc, pointer, index, size, place)?)
}

/// `a - b`. K29 where the operands are wrong.
pub fn subtraction(
    alloc: Global,
    types: &TypeTable,
    left: Typed,
    right: Typed,
    place: Place,
) -> Result<Typed, CheckRefused> {
    match difference_of(pair_of(alloc, types, &left.tree, &right.tree)?) {
        Difference::Integers => {
            on_common(alloc, types, same(Operator::Subtract), left, right, place)
        }
        Difference::Minus(size) => pointer_less(alloc, types, left, right, size, place),
        Difference::Between(size) => { Ok(pointer_difference(alloc, left, right, size, place)?) }
        Difference::Wrong => Err(broken(CheckRule::K29, place)),
    }
}
