//! Promotions and the usual arithmetic conversions (C90 6.2.1.1, 6.2.1.5).

use crate::conversion::convert;
use crate::sort::{Sort, sort_of, unqualified};
use crate::typed::Typed;
use c_types::{INT, LONG, TypeId, TypeTable, UNSIGNED, UNSIGNED_LONG};
use fsc_base::NoMemory;
use std::alloc::Global;

/// An integer type as it is promoted, its qualifiers gone: `int` for types of 1 and 2 bytes and for enums.
fn promoted_integer(kind: TypeId) -> TypeId {
    if INT <= kind && kind <= UNSIGNED_LONG {
        kind
    } else {
        INT
    }
}

/// The type of an expression's value as it is promoted (C90 6.2.1.1): of an integer `int`, where that has all its values, as that of
/// an unsigned bit-field of less than 32 bits; a type that is no integer stays, without its qualifiers. It takes no memory.
pub fn promoted_kind(types: &TypeTable, e: &Typed) -> TypeId {
    let kind = unqualified(types, e.tree.kind);
    match sort_of(types, kind) {
        Sort::Integer { .. } => match e.bits {
            Some(bits) => {
                if bits.count < 32 {
                    INT
                } else {
                    promoted_integer(kind)
                }
            }
            None => promoted_integer(kind),
        },
        Sort::Void | Sort::Pointer(_) | Sort::Array(_) | Sort::Record | Sort::Function(_) => kind,
    }
}

/// The value of an expression, promoted. Refused only for want of memory.
pub fn promoted(alloc: Global, types: &TypeTable, e: Typed) -> Result<Typed, NoMemory> {
    let kind = promoted_kind(types, &e);
    convert(alloc, types, e, kind)
}

/// The common type of two integer expressions (C90 6.2.1.5), where `long` has the values of `int`: `unsigned long` where one is, or
/// one is `long` and the other `unsigned`; else `long`, else `unsigned`, where one is; else `int`. It takes no memory.
pub fn usual(types: &TypeTable, left: &Typed, right: &Typed) -> TypeId {
    let left = promoted_kind(types, left);
    let right = promoted_kind(types, right);
    let one_is = |kind: TypeId| left == kind || right == kind;
    if one_is(UNSIGNED_LONG) || one_is(LONG) && one_is(UNSIGNED) {
        UNSIGNED_LONG
    } else if one_is(LONG) {
        LONG
    } else if one_is(UNSIGNED) {
        UNSIGNED
    } else {
        INT
    }
}
