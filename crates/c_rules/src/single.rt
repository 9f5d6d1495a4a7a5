//! Operators with one operand, `sizeof` and casts (C90 6.3.3.3, 6.3.3.4, 6.3.4).

use c_conversion::{Sort, Typed, cast, is_integer, is_scalar, number, promoted, sort_of, unary};
use c_ops::UnaryOperator;
use c_types::{INT, TypeId, TypeTable, UNSIGNED, VOID};
use check_refusal::{CheckRefused, CheckRule, broken};
use fsc_base::{NoMemory, Place};
use std::alloc::Global;

/// The operator on a promoted integer.
fn of_promoted(
    alloc: Global,
    types: &TypeTable,
    op: UnaryOperator,
    e: Typed,
    place: Place,
) -> Result<Typed, NoMemory> {
    let e = promoted(alloc, types, e)?;
    let kind = e.tree.kind;
    unary(alloc, op, e, kind, place)
}

/// `+e`, `-e`, `~e`, for a value e (C90 6.3.3.3). K26 where it is no integer.
pub fn integer_unary(
    alloc: Global,
    types: &TypeTable,
    op: UnaryOperator,
    e: Typed,
    place: Place,
) -> Result<Typed, CheckRefused> {
    if is_integer(types, e.tree.kind) {
        Ok(of_promoted(alloc, types, op, e, place)?)
    } else {
        Err(broken(CheckRule::K26, place))
    }
}

/// `!e`, for a value e (C90 6.3.3.3). K26 where it is not scalar.
pub fn negation(
    alloc: Global,
    types: &TypeTable,
    e: Typed,
    place: Place,
) -> Result<Typed, CheckRefused> {
    if is_scalar(types, e.tree.kind) {
        Ok(unary(alloc, UnaryOperator::Not, e, INT, place)?)
    } else {
        Err(broken(CheckRule::K26, place))
    }
}

/// `sizeof(T)` (C90 6.3.3.4). K27 where T is a function type or incomplete.
pub fn size_of_type(types: &TypeTable, kind: TypeId, place: Place) -> Result<Typed, CheckRefused> {
    match types.size(kind) {
        Some(size) => Ok(number(size, UNSIGNED, place)),
        None => Err(broken(CheckRule::K27, place)),
    }
}

/// `sizeof e` (C90 6.3.3.4). K27 where e is a function, a bit-field or of incomplete type.
pub fn size_of_expression(
    types: &TypeTable,
    e: &Typed,
    place: Place,
) -> Result<Typed, CheckRefused> {
    if e.is_bit_field() {
        return Err(broken(CheckRule::K27, place));
    }
    size_of_type(types, e.tree.kind, place)
}

/// What a cast of a value does.
#[derive(Clone, Copy)]
pub enum Casting {
    ToVoid,
    Scalar,
    /// The value is void.
    OfVoid,
    Wrong,
}

/// What a cast of a value of the second type to the first one does. It takes no memory.
pub fn casting_of(types: &TypeTable, kind: TypeId, of: TypeId) -> Casting {
    if sort_of(types, kind) == Sort::Void {
        Casting::ToVoid
    } else if sort_of(types, of) == Sort::Void {
        Casting::OfVoid
    } else if is_scalar(types, kind) && is_scalar(types, of) {
        Casting::Scalar
    } else {
        Casting::Wrong
    }
}

/// `(T)e`, for an unqualified T and a value e (C90 6.3.4). To void any; else K53 at e where it is void, and K28 where one of both is
/// not scalar.
pub fn cast_to(
    alloc: Global,
    types: &TypeTable,
    kind: TypeId,
    e: Typed,
    place: Place,
) -> Result<Typed, CheckRefused> {
    match casting_of(types, kind, e.tree.kind) {
        Casting::ToVoid => Ok(cast(alloc, types, e, VOID, place)?),
        Casting::Scalar => Ok(cast(alloc, types, e, kind, place)?),
        Casting::OfVoid => Err(broken(CheckRule::K53, e.tree.place)),
        Casting::Wrong => Err(broken(CheckRule::K28, place)),
    }
}
