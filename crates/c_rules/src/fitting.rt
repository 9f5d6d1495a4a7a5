//! What an object of a type may be given (C90 6.3.16.1).

use crate::operand::{Operand, Pair, Target, fitting_of};
use c_conversion::{Sort, Typed, convert, own_qualifiers, sort_of, unqualified};
use c_tree::TExpr;
use c_types::{TypeId, TypeTable};
use check_refusal::{CheckRefused, CheckRule, broken};
use fsc_base::{NoMemory, Place};
use std::alloc::Global;

/// Why a value may be stored in an object of a type.
#[derive(Clone, Copy)]
pub enum Fit {
    /// Both are integers.
    Integers,
    /// Both are of the same struct or union type.
    Records,
    /// Both are pointers, to compatible types or one of them to void, and no qualifier of what is pointed to is lost.
    Pointers,
    /// The value is a null pointer constant.
    Null,
    /// It may not.
    Not,
}

/// Whether one points to void, and the other to an object or void too.
pub fn is_void_with(left: Target, right: Target) -> bool {
    left == Target::Void && right != Target::Function
}

/// Pointers that fit.
fn pointer_fit(pair: Pair, keeps_qualifiers: bool, left: Target, right: Target) -> Fit {
    let is_met = pair.agree || is_void_with(left, right) || is_void_with(right, left);
    if keeps_qualifiers && is_met {
        Fit::Pointers
    } else {
        null_fit(pair)
    }
}

/// A null pointer constant fits each pointer.
fn null_fit(pair: Pair) -> Fit {
    if pair.right_is_null {
        Fit::Null
    } else {
        Fit::Not
    }
}

/// Whether the right one, a value, fits the left one, a type; `keeps_qualifiers` says of two pointers that what the left one points to
/// has all qualifiers of what the right one points to.
pub fn fit_of(pair: Pair, keeps_qualifiers: bool) -> Fit {
    match (pair.left, pair.right) {
        (Operand::Integer, Operand::Integer) => Fit::Integers,
        (Operand::Record, Operand::Record) => { if pair.is_same { Fit::Records } else { Fit::Not } }
        (Operand::Pointer { target: left, .. }, Operand::Pointer { target: right, .. }) => {
            pointer_fit(pair, keeps_qualifiers, left, right)
        }
        (Operand::Pointer { .. }, Operand::Integer) => null_fit(pair),
        _ => Fit::Not,
    }
}

/// Whether what the left one points to has all qualifiers of what the right one points to. It takes no memory.
fn keeps_qualifiers(types: &TypeTable, left: TypeId, right: TypeId) -> bool {
    match (sort_of(types, left), sort_of(types, right)) {
        (Sort::Pointer(left), Sort::Pointer(right)) => {
            let kept = own_qualifiers(types, left);
            kept | own_qualifiers(types, right) == kept
        }
        _ => true,
    }
}

/// Whether a value may be stored in an object of this type, qualifiers of the type itself aside. Refused only for want of memory.
pub fn fits(alloc: Global, types: &TypeTable, target: TypeId, e: &TExpr) -> Result<Fit, NoMemory> {
    let pair = fitting_of(alloc, types, target, e)?;
    Ok(fit_of(pair, keeps_qualifiers(types, target, e.kind)))
}

/// A value as it is stored in an object of this type: converted, where it is no struct or union. This rule at this place where it does
/// not fit.
pub fn fitted(
    alloc: Global,
    types: &TypeTable,
    target: TypeId,
    e: Typed,
    rule: CheckRule,
    place: Place,
) -> Result<Typed, CheckRefused> {
    match fits(alloc, types, target, &e.tree)? {
        Fit::Not => Err(broken(rule, place)),
        Fit::Records => Ok(e),
        Fit::Integers | Fit::Pointers | Fit::Null => {
            Ok(convert(alloc, types, e, unqualified(types, target))?)
        }
    }
}
