//! Nodes of assignments.

use crate::pending::{of_compound, of_two};
use crate::sort::unqualified;
use crate::typed::{Typed, boxed};
use crate::values::access_of;
use c_tree::{CompoundOp, Form, TExpr};
use c_types::{TypeId, TypeTable};
use fsc_base::{NoMemory, Place};
use std::alloc::Global;

/// `target = value`, of a scalar (C90 6.3.16.1). The value has the target's type without its qualifiers.
pub fn assign(
    alloc: Global,
    types: &TypeTable,
    target: Typed,
    value: Typed,
    place: Place,
) -> Result<Typed, NoMemory> {
    let kind = unqualified(types, target.tree.kind);
    let access = access_of(types, kind, target.bits);
    let bits = target.bits;
    let pending = of_two(target.pending, value.pending);
    let form = Form::Assign {
        target: boxed(alloc, target.tree)?,
        value: boxed(alloc, value.tree)?,
        access,
    };
    Ok(Typed {
        tree: TExpr { form, kind, place },
        pending,
        is_register: false,
        bits,
    })
}

/// `target = value`, of a struct or union of this type and size in bytes.
pub fn assign_record(
    alloc: Global,
    target: Typed,
    value: Typed,
    size: u32,
    kind: TypeId,
    place: Place,
) -> Result<Typed, NoMemory> {
    let pending = of_two(target.pending, value.pending);
    let form = Form::AssignRecord {
        target: boxed(alloc, target.tree)?,
        value: boxed(alloc, value.tree)?,
        size,
    };
    Ok(Typed::plain(form, kind, place, pending))
}

/// `target op= value` (C90 6.3.16.2).
pub fn compound(
    alloc: Global,
    types: &TypeTable,
    target: Typed,
    op: CompoundOp,
    value: Typed,
    place: Place,
) -> Result<Typed, NoMemory> {
    let kind = unqualified(types, target.tree.kind);
    let access = access_of(types, kind, target.bits);
    let bits = target.bits;
    let pending = of_compound(target.pending, value.pending);
    let form = Form::Compound {
        target: boxed(alloc, target.tree)?,
        op,
        value: boxed(alloc, value.tree)?,
        access,
    };
    Ok(Typed {
        tree: TExpr { form, kind, place },
        pending,
        is_register: false,
        bits,
    })
}

/// `++` and `--` before or behind the target (C90 6.3.2.4, 6.3.3.1).
pub fn step(
    alloc: Global,
    types: &TypeTable,
    target: Typed,
    op: CompoundOp,
    is_prefix: bool,
    place: Place,
) -> Result<Typed, NoMemory> {
    let kind = unqualified(types, target.tree.kind);
    let access = access_of(types, kind, target.bits);
    let bits = target.bits;
    let pending = of_compound(target.pending, 1);
    let form = Form::Step {
        target: boxed(alloc, target.tree)?,
        op,
        is_prefix,
        access,
    };
    Ok(Typed {
        tree: TExpr { form, kind, place },
        pending,
        is_register: false,
        bits,
    })
}
