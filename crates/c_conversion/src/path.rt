//! Nodes of names, constants, and what leads to an object.

use crate::pending::of_two;
use crate::typed::{BitField, Typed, boxed};
use c_tree::{Form, Member, Side, Symbol, TExpr};
use c_types::TypeId;
use fsc_base::{NoMemory, Place};
use std::alloc::Global;

/// A constant.
pub fn number(value: u32, kind: TypeId, place: Place) -> Typed {
    Typed::plain(Form::Number(value), kind, place, 1)
}

/// A name with linkage, a string literal or a static object of a block.
pub fn static_object(symbol: Symbol, kind: TypeId, place: Place) -> Typed {
    Typed::plain(Form::Static(symbol), kind, place, 1)
}

/// A parameter or automatic name.
pub fn local(index: u32, kind: TypeId, is_register: bool, place: Place) -> Typed {
    Typed {
        tree: TExpr {
            form: Form::Local(index),
            kind,
            place,
        },
        pending: 1,
        is_register,
        bits: None,
    }
}

/// Whether it is a pointer to the first element of an array that was declared `register`.
fn is_register_array(pointer: &Typed) -> bool {
    pointer.is_register && matches!(&pointer.tree.form, Form::Decay(_))
}

/// `*e`, of the type that the pointer points to.
pub fn dereference(
    alloc: Global,
    pointer: Typed,
    kind: TypeId,
    place: Place,
) -> Result<Typed, NoMemory> {
    let is_register = is_register_array(&pointer);
    let Typed { tree, pending, .. } = pointer;
    let form = Form::Deref(boxed(alloc, tree)?);
    Ok(Typed {
        tree: TExpr { form, kind, place },
        pending,
        is_register,
        bits: None,
    })
}

/// What a subscript reaches: where the pointer stands, the type that it points to, and that type's size in bytes.
#[derive(Clone, Copy, Debug, PartialEq, Eq)]
pub struct Element {
    pub pointer: Side,
    pub kind: TypeId,
    pub size: u32,
}

/// `base[index]`.
pub fn index(
    alloc: Global,
    base: Typed,
    index: Typed,
    element: Element,
    place: Place,
) -> Result<Typed, NoMemory> {
    let is_register = match element.pointer {
        Side::Left => is_register_array(&base),
        Side::Right => is_register_array(&index),
    };
    let pending = of_two(base.pending, index.pending);
    let form = Form::Index {
        base: boxed(alloc, base.tree)?,
        index: boxed(alloc, index.tree)?,
        pointer: element.pointer,
        size: element.size,
    };
    let kind = element.kind;
    Ok(Typed {
        tree: TExpr { form, kind, place },
        pending,
        is_register,
        bits: None,
    })
}

/// `e.m`, of the member's type with the record's qualifiers.
pub fn dot(
    alloc: Global,
    record: Typed,
    member: Member,
    bits: Option<BitField>,
    kind: TypeId,
    place: Place,
) -> Result<Typed, NoMemory> {
    let Typed {
        tree,
        pending,
        is_register,
        ..
    } = record;
    let form = Form::Dot(boxed(alloc, tree)?, member);
    Ok(Typed {
        tree: TExpr { form, kind, place },
        pending,
        is_register,
        bits,
    })
}

/// `e->m`, of the member's type with the record's qualifiers.
pub fn arrow(
    alloc: Global,
    pointer: Typed,
    member: Member,
    bits: Option<BitField>,
    kind: TypeId,
    place: Place,
) -> Result<Typed, NoMemory> {
    let Typed { tree, pending, .. } = pointer;
    let form = Form::Arrow(boxed(alloc, tree)?, member);
    Ok(Typed {
        tree: TExpr { form, kind, place },
        pending,
        is_register: false,
        bits,
    })
}

/// An array or a function as a pointer of this type, at its own place.
pub fn decay(alloc: Global, e: Typed, kind: TypeId) -> Result<Typed, NoMemory> {
    let Typed {
        tree,
        pending,
        is_register,
        ..
    } = e;
    let place = tree.place;
    let form = Form::Decay(boxed(alloc, tree)?);
    Ok(Typed {
        tree: TExpr { form, kind, place },
        pending,
        is_register,
        bits: None,
    })
}

/// `&e`, of this pointer type.
pub fn address_of(alloc: Global, e: Typed, kind: TypeId, place: Place) -> Result<Typed, NoMemory> {
    let Typed { tree, pending, .. } = e;
    let form = Form::AddressOf(boxed(alloc, tree)?);
    Ok(Typed::plain(form, kind, place, pending))
}
