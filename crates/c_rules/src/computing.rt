//! Operators on integers, shifts and the logical operators (C90 6.3.5, 6.3.7, 6.3.10 to 6.3.14).

use crate::operand::{Operand, operand_of};
use crate::operator::Signs;
use c_conversion::{Typed, binary, both, convert, either, is_scalar, is_unsigned, promoted, usual};
use c_types::TypeTable;
use check_refusal::{CheckRefused, CheckRule, broken};
use fsc_base::Place;
use std::alloc::Global;

/// Two integers in their common type, whose operator has that type.
pub(crate) fn on_common(
    alloc: Global,
    types: &TypeTable,
    signs: Signs,
    left: Typed,
    right: Typed,
    place: Place,
) -> Result<Typed, CheckRefused> {
    let kind = usual(types, &left, &right);
    let op = signs.of(is_unsigned(types, kind));
    let left = convert(alloc, types, left, kind)?;
    let right = convert(alloc, types, right, kind)?;
    Ok(binary(alloc, op, left, right, kind, place)?)
}

/// Whether both are integers. It takes no memory.
pub(crate) fn are_integers(types: &TypeTable, left: &Typed, right: &Typed) -> bool {
    operand_of(types, left.tree.kind) == Operand::Integer
        && operand_of(types, right.tree.kind) == Operand::Integer
}

/// `* / % & ^ |`. K29 where the operands are no integers.
pub fn arithmetic(
    alloc: Global,
    types: &TypeTable,
    signs: Signs,
    left: Typed,
    right: Typed,
    place: Place,
) -> Result<Typed, CheckRefused> {
    if are_integers(types, &left, &right) {
        on_common(alloc, types, signs, left, right, place)
    } else {
        Err(broken(CheckRule::K29, place))
    }
}

/// Two integers, each promoted; the left one's type is the operator's.
fn shifted(
    alloc: Global,
    types: &TypeTable,
    signs: Signs,
    left: Typed,
    right: Typed,
    place: Place,
) -> Result<Typed, CheckRefused> {
    let left = promoted(alloc, types, left)?;
    let right = promoted(alloc, types, right)?;
    let kind = left.tree.kind;
    let op = signs.of(is_unsigned(types, kind));
    Ok(binary(alloc, op, left, right, kind, place)?)
}

/// `<< >>`. K29 where the operands are no integers.
pub fn shift(
    alloc: Global,
    types: &TypeTable,
    signs: Signs,
    left: Typed,
    right: Typed,
    place: Place,
) -> Result<Typed, CheckRefused> {
    if are_integers(types, &left, &right) {
        shifted(alloc, types, signs, left, right, place)
    } else {
        Err(broken(CheckRule::K29, place))
    }
}

/// Whether both are scalar. It takes no memory.
fn are_scalar(types: &TypeTable, left: &Typed, right: &Typed) -> bool {
    is_scalar(types, left.tree.kind) && is_scalar(types, right.tree.kind)
}

/// `a && b`. K29 where the operands are not scalar.
pub fn conjunction(
    alloc: Global,
    types: &TypeTable,
    left: Typed,
    right: Typed,
    place: Place,
) -> Result<Typed, CheckRefused> {
    if are_scalar(types, &left, &right) {
        Ok(both(alloc, left, right, place)?)
    } else {
        Err(broken(CheckRule::K29, place))
    }
}

/// `a || b`. K29 where the operands are not scalar.
pub fn disjunction(
    alloc: Global,
    types: &TypeTable,
    left: Typed,
    right: Typed,
    place: Place,
) -> Result<Typed, CheckRefused> {
    if are_scalar(types, &left, &right) {
        Ok(either(alloc, left, right, place)?)
    } else {
        Err(broken(CheckRule::K29, place))
    }
}
