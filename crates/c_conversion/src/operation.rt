//! Nodes of operators.

use crate::pending::of_two;
use crate::typed::{Typed, boxed};
use c_ops::{Operator, UnaryOperator};
use c_tree::{Form, Side};
use c_types::{INT, TypeId};
use fsc_base::{NoMemory, Place};
use std::alloc::Global;

/// `+e`, `-e`, `~e`, `!e`.
pub fn unary(
    alloc: Global,
    op: UnaryOperator,
    e: Typed,
    kind: TypeId,
    place: Place,
) -> Result<Typed, NoMemory> {
    let Typed { tree, pending, .. } = e;
    let form = Form::Unary(op, boxed(alloc, tree)?);
    Ok(Typed::plain(form, kind, place, pending))
}

/// An operator on two integers of one type, a shift, or a comparison.
pub fn binary(
    alloc: Global,
    op: Operator,
    left: Typed,
    right: Typed,
    kind: TypeId,
    place: Place,
) -> Result<Typed, NoMemory> {
    let pending = of_two(left.pending, right.pending);
    let form = Form::Binary(op, boxed(alloc, left.tree)?, boxed(alloc, right.tree)?);
    Ok(Typed::plain(form, kind, place, pending))
}

/// A pointer plus an integer, whose type is the pointer's; the size is that of what it points to.
pub fn pointer_add(
    alloc: Global,
    left: Typed,
    right: Typed,
    pointer: Side,
    size: u32,
    place: Place,
) -> Result<Typed, NoMemory> {
    let kind = match pointer {
        Side::Left => left.tree.kind,
        Side::Right => right.tree.kind,
    };
    let pending = of_two(left.pending, right.pending);
    let form = Form::PointerAdd {
        left: boxed(alloc, left.tree)?,
        right: boxed(alloc, right.tree)?,
        pointer,
        size,
    };
    Ok(Typed::plain(form, kind, place, pending))
}

/// A pointer minus an integer, whose type is the pointer's; the size is that of what it points to.
pub fn pointer_minus(
    alloc: Global,
    pointer: Typed,
    index: Typed,
    size: u32,
    place: Place,
) -> Result<Typed, NoMemory> {
    let kind = pointer.tree.kind;
    let pending = of_two(pointer.pending, index.pending);
    let form = Form::PointerMinus {
        pointer: boxed(alloc, pointer.tree)?,
        index: boxed(alloc, index.tree)?,
        size,
    };
    Ok(Typed::plain(form, kind, place, pending))
}

/// A pointer minus a pointer, an `int`; the size is that of what they point to.
pub fn pointer_difference(
    alloc: Global,
    left: Typed,
    right: Typed,
    size: u32,
    place: Place,
) -> Result<Typed, NoMemory> {
    let pending = of_two(left.pending, right.pending);
    let form = Form::PointerDifference {
        left: boxed(alloc, left.tree)?,
        right: boxed(alloc, right.tree)?,
        size,
    };
    Ok(Typed::plain(form, INT, place, pending))
}

/// `a && b`.
pub fn both(alloc: Global, left: Typed, right: Typed, place: Place) -> Result<Typed, NoMemory> {
    let pending = left.pending.max(right.pending);
    let form = Form::Both(boxed(alloc, left.tree)?, boxed(alloc, right.tree)?);
    Ok(Typed::plain(form, INT, place, pending))
}

/// `a || b`.
pub fn either(alloc: Global, left: Typed, right: Typed, place: Place) -> Result<Typed, NoMemory> {
    let pending = left.pending.max(right.pending);
    let form = Form::Either(boxed(alloc, left.tree)?, boxed(alloc, right.tree)?);
    Ok(Typed::plain(form, INT, place, pending))
}

/// `a ? b : c`, whose second and third operands have this type.
pub fn choose(
    alloc: Global,
    test: Typed,
    yes: Typed,
    no: Typed,
    kind: TypeId,
    place: Place,
) -> Result<Typed, NoMemory> {
    let pending = test.pending.max(yes.pending).max(no.pending);
    let form = Form::Choose(
        boxed(alloc, test.tree)?,
        boxed(alloc, yes.tree)?,
        boxed(alloc, no.tree)?,
    );
    Ok(Typed::plain(form, kind, place, pending))
}
