//! Assignments, `++` and `--` (C90 6.3.16, 6.3.2.4, 6.3.3.1).

use crate::fitting::fitted;
use crate::operand::{Operand, Target, operand_of};
use crate::operator::{Group, Signs, group_of, same};
use c_conversion::{
    Sort, Typed, assign, assign_record, compound, convert, is_modifiable, is_unsigned, promoted,
    promoted_kind, sort_of, step, unqualified, usual,
};
use c_ops::Operator;
use c_syntax::{Binary, Step};
use c_tree::CompoundOp;
use c_types::TypeTable;
use check_refusal::{CheckRefused, CheckRule, broken};
use fsc_base::Place;
use std::alloc::Global;

/// A value of the target's type stored there: a scalar, or a struct or union of this size.
fn stored(
    alloc: Global,
    types: &TypeTable,
    target: Typed,
    value: Typed,
    place: Place,
) -> Result<Typed, CheckRefused> {
    let kind = unqualified(types, target.tree.kind);
    match (sort_of(types, kind), types.size(kind)) {
        (Sort::Record, Some(size)) => {
            Ok(assign_record(alloc, target, value, size, kind, place)?)
        }
        _ => Ok(assign(alloc, types, target, value, place)?),
    }
}

/// `l = r`, for a value r (C90 6.3.16.1); `has_const` says that l is a struct or union with a const member at any depth. K46 where l is
/// no modifiable lvalue, or r does not fit.
pub fn assignment(
    alloc: Global,
    types: &TypeTable,
    has_const: bool,
    target: Typed,
    value: Typed,
    place: Place,
) -> Result<Typed, CheckRefused> {
    if !is_modifiable(types, has_const, &target.tree) {
        return Err(broken(CheckRule::K46, place));
    }
    let kind = target.tree.kind;
    let value = fitted(alloc, types, kind, value, CheckRule::K46, place)?;
    stored(alloc, types, target, value, place)
}

/// How `op=` combines the target with the value.
#[derive(Clone, Copy)]
pub enum Combining {
    /// In their common type.
    Common(Signs),
    /// In the target's promoted type.
    Shift(Signs),
    /// A pointer and an integer.
    Pointer(CompoundOp),
    Wrong,
}

/// How integers are combined.
fn combining_of_integers(group: Group) -> Combining {
    match group {
        Group::Arithmetic(signs) => Combining::Common(signs),
        Group::Shift(signs) => Combining::Shift(signs),
        Group::Sum => Combining::Common(same(Operator::Add)),
        Group::Difference => Combining::Common(same(Operator::Subtract)),
        Group::Both | Group::Either | Group::Equality(_) | Group::Relation(_) => Combining::Wrong,
    }
}

/// How a pointer to a complete object type of this size and an integer are combined.
fn combining_of_pointer(group: Group, size: u32) -> Combining {
    match group {
        Group::Sum => Combining::Pointer(CompoundOp::PointerPlus(size)),
        Group::Difference => Combining::Pointer(CompoundOp::PointerMinus(size)),
        _ => Combining::Wrong,
    }
}

/// How the operator combines these.
pub fn combining_of(op: Binary, target: Operand, value: Operand) -> Combining {
    match (target, value) {
        (Operand::Integer, Operand::Integer) => combining_of_integers(group_of(op)),
        (
            Operand::Pointer {
                target: Target::Object(size),
                ..
            },
            Operand::Integer,
        ) => combining_of_pointer(group_of(op), size),
        _ => Combining::Wrong,
    }
}

/// Combined in the common type, to which the value is converted.
fn combined_on_common(
    alloc: Global,
    types: &TypeTable,
    signs: Signs,
    target: Typed,
    value: Typed,
    place: Place,
) -> Result<Typed, CheckRefused> {
    let kind = usual(types, &target, &value);
    let op = CompoundOp::Plain(signs.of(is_unsigned(types, kind)));
    let value = convert(alloc, types, value, kind)?;
    Ok(compound(alloc, types, target, op, value, place)?)
}

/// Shifted in the target's promoted type; the value is promoted.
fn combined_by_shift(
    alloc: Global,
    types: &TypeTable,
    signs: Signs,
    target: Typed,
    value: Typed,
    place: Place,
) -> Result<Typed, CheckRefused> {
    let kind = promoted_kind(types, &target);
    let op = CompoundOp::Plain(signs.of(is_unsigned(types, kind)));
    let value = promoted(alloc, types, value)?;
    Ok(compound(alloc, types, target, op, value, place)?)
}

/// A pointer moved by a promoted integer.
fn combined_pointer(
    alloc: Global,
    types: &TypeTable,
    op: CompoundOp,
    target: Typed,
    value: Typed,
    place: Place,
) -> Result<Typed, CheckRefused> {
    let value = promoted(alloc, types, value)?;
    Ok(compound(alloc, types, target, op, value, place)?)
}

/// The target combined so with the value. K29 where they can't be.
fn combined(
    alloc: Global,
    types: &TypeTable,
    combining: Combining,
    target: Typed,
    value: Typed,
    place: Place,
) -> Result<Typed, CheckRefused> {
    match combining {
        Combining::Common(signs) => combined_on_common(alloc, types, signs, target, value, place),
        Combining::Shift(signs) => combined_by_shift(alloc, types, signs, target, value, place),
        Combining::Pointer(op) => combined_pointer(alloc, types, op, target, value, place),
        Combining::Wrong => Err(broken(CheckRule::K29, place)),
    }
}

/// `l op= r`, for a value r (C90 6.3.16.2); `has_const` as in `assignment`. K46 where l is no modifiable lvalue, K29 where the operands
/// are wrong.
pub fn compound_assignment(
    alloc: Global,
    types: &TypeTable,
    has_const: bool,
    op: Binary,
    target: Typed,
    value: Typed,
    place: Place,
) -> Result<Typed, CheckRefused> {
    if !is_modifiable(types, has_const, &target.tree) {
        return Err(broken(CheckRule::K46, place));
    }
    let left = operand_of(types, target.tree.kind);
    let right = operand_of(types, value.tree.kind);
    let combining = combining_of(op, left, right);
    combined(alloc, types, combining, target, value, place)
}

/// What `++` and `--` do to this: an integer, or a pointer to a complete object type; None of all else.
pub fn step_of(step: Step, target: Operand) -> Option<CompoundOp> {
    match (target, step) {
        (Operand::Integer, Step::Increment) => Some(CompoundOp::Plain(Operator::Add)),
        (Operand::Integer, Step::Decrement) => Some(CompoundOp::Plain(Operator::Subtract)),
        (
            Operand::Pointer {
                target: Target::Object(size),
                ..
            },
            Step::Increment,
        ) => Some(CompoundOp::PointerPlus(size)),
        (
            Operand::Pointer {
                target: Target::Object(size),
                ..
            },
            Step::Decrement,
        ) => Some(CompoundOp::PointerMinus(size)),
        _ => None,
    }
}

/// What `++` and `--` do to an expression, where it is a modifiable lvalue of such a type. It takes no memory.
fn stepped(types: &TypeTable, has_const: bool, by: Step, e: &Typed) -> Option<CompoundOp> {
    if is_modifiable(types, has_const, &e.tree) {
        step_of(by, operand_of(types, e.tree.kind))
    } else {
        None
    }
}

/// `++e`, `--e`, and, without `is_prefix`, `e++`, `e--` (C90 6.3.2.4, 6.3.3.1); `has_const` as in `assignment`. K23 where e is no
/// modifiable lvalue, or neither an integer nor a pointer to a complete object type.
pub fn increment(
    alloc: Global,
    types: &TypeTable,
    has_const: bool,
    by: Step,
    is_prefix: bool,
    e: Typed,
    place: Place,
) -> Result<Typed, CheckRefused> {
    match stepped(types, has_const, by, &e) {
        Some(op) => Ok(step(alloc, types, e, op, is_prefix, place)?),
        None => Err(broken(CheckRule::K23, place)),
    }
}
