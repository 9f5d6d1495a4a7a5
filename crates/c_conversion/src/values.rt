//! What an expression gives where its value is wanted (C90 6.2.2.1, 6.2.2.2).

use crate::category::{Category, category_of};
use crate::path::decay;
use crate::sort::{Sort, sort_of, unqualified};
use crate::typed::{BitField, Typed, boxed};
use c_tree::{Access, Form, TExpr};
use c_types::{TypeId, TypeTable};
use check_refusal::{CheckRefused, CheckRule, broken};
use fsc_base::{NoMemory, Width};
use std::alloc::Global;

/// How an object of a scalar type, or this bit-field of it, is read and stored. It takes no memory.
pub fn access_of(types: &TypeTable, kind: TypeId, bits: Option<BitField>) -> Access {
    let (width, is_signed) = match sort_of(types, kind) {
        Sort::Integer { width, is_signed } => (width, is_signed),
        Sort::Void | Sort::Pointer(_) | Sort::Array(_) | Sort::Record | Sort::Function(_) => {
            (Width::Four, false)
        }
    };
    match bits {
        Some(BitField { first, count }) => Access::Bits {
            first,
            count,
            is_signed,
        },
        None => Access::Scalar { width, is_signed },
    }
}

/// Whether the form leads to an object, so that its value has to be read.
fn is_path(form: &Form<TExpr>) -> bool {
    matches!(
        form,
        Form::Static(_)
            | Form::Local(_)
            | Form::Deref(_)
            | Form::Index { .. }
            | Form::Dot(_, _)
            | Form::Arrow(_, _)
    )
}

/// The value of a scalar object.
fn read(alloc: Global, types: &TypeTable, e: Typed) -> Result<Typed, NoMemory> {
    let kind = unqualified(types, e.tree.kind);
    let access = access_of(types, kind, e.bits);
    let Typed {
        tree,
        pending,
        bits,
        ..
    } = e;
    let place = tree.place;
    let form = Form::Value(boxed(alloc, tree)?, access);
    Ok(Typed {
        tree: TExpr { form, kind, place },
        pending,
        is_register: false,
        bits,
    })
}

/// A scalar where its value is wanted.
fn scalar_value(alloc: Global, types: &TypeTable, e: Typed) -> Result<Typed, NoMemory> {
    if is_path(&e.tree.form) {
        read(alloc, types, e)
    } else {
        Ok(e)
    }
}

/// An array where its value is wanted: one that is no lvalue, as a member of what a function returned, stays an array.
fn array_value(
    alloc: Global,
    types: &mut TypeTable,
    e: Typed,
    of: TypeId,
) -> Result<Typed, NoMemory> {
    if category_of(types, &e.tree) == Category::Lvalue {
        let kind = types.pointer_to(of)?;
        decay(alloc, e, kind)
    } else {
        Ok(e)
    }
}

/// A function where its value is wanted: a pointer to it.
fn function_value(alloc: Global, types: &mut TypeTable, e: Typed) -> Result<Typed, NoMemory> {
    let kind = types.pointer_to(e.tree.kind)?;
    decay(alloc, e, kind)
}

/// An expression where its value is wanted. An array that is an lvalue, and a function, becomes a pointer; a scalar object is read,
/// and what was read has no qualifiers; a struct or union stays as it is, as does void. Refused only for want of memory.
pub fn value(alloc: Global, types: &mut TypeTable, e: Typed) -> Result<Typed, NoMemory> {
    match sort_of(types, e.tree.kind) {
        Sort::Function(_) => function_value(alloc, types, e),
        Sort::Array(of) => array_value(alloc, types, e, of),
        Sort::Integer { .. } | Sort::Pointer(_) => scalar_value(alloc, types, e),
        Sort::Void | Sort::Record => Ok(e),
    }
}

/// The value of an expression that has to have one: K53 at its place where its type is void.
pub fn used(alloc: Global, types: &mut TypeTable, e: Typed) -> Result<Typed, CheckRefused> {
    if sort_of(types, e.tree.kind) == Sort::Void {
        return Err(broken(CheckRule::K53, e.tree.place));
    }
    Ok(value(alloc, types, e)?)
}
