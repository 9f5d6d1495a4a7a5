//! How many operations rows have.

use crate::locals::Spot;
use crate::operators::binary_of;
use c_ops::{Operator, UnaryOperator};
use c_tree::{Access, CompoundOp, Conversion, Side};
use fsc_base::Width;

/// Of the move by an offset.
pub fn moved_length(offset: u32) -> u32 {
    if offset == 0 { 0 } else { 2 }
}

/// Of a multiplication by the size of an element.
fn scaled_length(size: u32) -> u32 {
    if size == 1 { 0 } else { 2 }
}

/// Of a pointer plus an integer.
pub fn indexed_length(pointer: Side, size: u32) -> u32 {
    let exchanged = match pointer {
        Side::Left => 1,
        Side::Right => 2,
    };
    scaled_length(size).saturating_add(exchanged)
}

/// Of a pointer minus an integer.
pub fn lowered_length(size: u32) -> u32 {
    scaled_length(size).saturating_add(1)
}

/// Of a conversion to a type of that width.
fn narrowed_length(width: Width) -> u32 {
    match width {
        Width::One | Width::Two => 1,
        Width::Four => 0,
    }
}

/// Of a conversion.
pub fn converted_length(conversion: Conversion) -> u32 {
    match conversion {
        Conversion::Keep => 0,
        Conversion::Narrow { width, .. } => narrowed_length(width),
        Conversion::Decide(_) => 1,
    }
}

/// Of an operator with one operand.
pub fn turned_length(op: UnaryOperator) -> u32 {
    match op {
        UnaryOperator::Plus => 0,
        UnaryOperator::Minus | UnaryOperator::Complement | UnaryOperator::Not => 1,
    }
}

/// Of an operator with two.
pub fn operated_length(op: Operator) -> u32 {
    let (is_exchanged, _) = binary_of(op);
    if is_exchanged { 2 } else { 1 }
}

/// Of a read in memory.
fn load_length(access: Access) -> u32 {
    match access {
        Access::Scalar { .. } => 1,
        Access::Bits { .. } => 5,
    }
}

/// Of a read.
pub fn read_length(spot: Spot, access: Access) -> u32 {
    match spot {
        Spot::Slot(_) => 1,
        Spot::Memory { .. } => load_length(access),
    }
}

/// Of a read that keeps the address.
pub fn peek_length(spot: Spot, access: Access) -> u32 {
    match spot {
        Spot::Slot(_) => 1,
        Spot::Memory { .. } => load_length(access).saturating_add(1),
    }
}

/// Of a store.
pub fn store_length(spot: Spot, access: Access) -> u32 {
    match (spot, access) {
        (Spot::Slot(_), _) => 1,
        (Spot::Memory { .. }, Access::Scalar { .. }) => 1,
        (Spot::Memory { .. }, Access::Bits { .. }) => 19,
    }
}

/// Of the conversion of a result to the type of its target.
fn fitted_length(access: Access) -> u32 {
    match access {
        Access::Scalar { width, .. } => narrowed_length(width),
        Access::Bits { .. } => 0,
    }
}

/// Of the operator of a compound assignment.
fn operator_length(op: CompoundOp) -> u32 {
    match op {
        CompoundOp::Plain(op) => operated_length(op),
        CompoundOp::PointerPlus(size) | CompoundOp::PointerMinus(size) => {
            scaled_length(size).saturating_add(1)
        }
    }
}

/// Of the same with 1.
fn one_length(op: CompoundOp) -> u32 {
    match op {
        CompoundOp::Plain(op) => operated_length(op).saturating_add(1),
        CompoundOp::PointerPlus(_) | CompoundOp::PointerMinus(_) => 2,
    }
}

/// Of the rest of a compound assignment, behind its operand.
pub fn combined_length(spot: Spot, op: CompoundOp, access: Access) -> u32 {
    operator_length(op)
        .saturating_add(fitted_length(access))
        .saturating_add(store_length(spot, access))
}

/// Of what stands behind the operator of `++` and `--`, and before it.
fn increment_store_length(spot: Spot, is_prefix: bool, access: Access) -> u32 {
    match (is_prefix, spot, access) {
        (true, _, _) => store_length(spot, access),
        (false, Spot::Slot(_), _) => 3,
        (false, Spot::Memory { .. }, Access::Scalar { .. }) => 4,
        (false, Spot::Memory { .. }, Access::Bits { .. }) => 16,
    }
}

/// Of the rest of `++` and `--`, behind the value of its operand.
pub fn increment_length(spot: Spot, op: CompoundOp, is_prefix: bool, access: Access) -> u32 {
    one_length(op)
        .saturating_add(fitted_length(access))
        .saturating_add(increment_store_length(spot, is_prefix, access))
}

/// Of putting the address of a struct call's block below so many arguments.
pub fn received_length(below: usize) -> u32 {
    match below {
        0 => 1,
        1 => 2,
        2 => 5,
        _ => 8,
    }
}

/// Of the store of a scalar piece of an initialiser.
pub fn initial_length(offset: u32, access: Access) -> u32 {
    let stored = match access {
        Access::Scalar { .. } => 4,
        Access::Bits { .. } => 16,
    };
    moved_length(offset).saturating_add(stored)
}

/// Of the copy of a piece that is a struct or union.
pub fn copied_length(offset: u32) -> u32 {
    moved_length(offset).saturating_add(4)
}

/// Of what stands before the body of a switch with so many cases.
pub fn head_length(cases: u32) -> u32 {
    cases.saturating_mul(4).saturating_add(3)
}
