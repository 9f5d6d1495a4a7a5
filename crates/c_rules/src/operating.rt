//! An operator and its two operands.

use crate::adding::{addition, subtraction};
use crate::comparing::{equality, relation};
use crate::computing::{arithmetic, conjunction, disjunction, shift};
use crate::operator::{Group, group_of};
use c_conversion::Typed;
use c_syntax::Binary;
use c_types::TypeTable;
use check_refusal::CheckRefused;
use fsc_base::Place;
use std::alloc::Global;

/// `a op b`, for values a and b (C90 6.3.5 to 6.3.14). K29 at this place where the operands are wrong.
pub fn operation(
    alloc: Global,
    types: &TypeTable,
    op: Binary,
    left: Typed,
    right: Typed,
    place: Place,
) -> Result<Typed, CheckRefused> {
    match group_of(op) {
        Group::Both => conjunction(alloc, types, left, right, place),
        Group::Either => disjunction(alloc, types, left, right, place),
        Group::Arithmetic(signs) => arithmetic(alloc, types, signs, left, right, place),
        Group::Shift(signs) => shift(alloc, types, signs, left, right, place),
        Group::Sum => addition(alloc, types, left, right, place),
        Group::Difference => subtraction(alloc, types, left, right, place),
        Group::Equality(op) => equality(alloc, types, op, left, right, place),
        Group::Relation(signs) => relation(alloc, types, signs, left, right, place),
    }
}
