//! Conversions as nodes (C90 6.2).

use crate::sort::{Sort, is_complete, sort_of};
use crate::typed::{Typed, boxed};
use c_tree::{Conversion, Form, TExpr};
use c_types::{TypeId, TypeTable};
use fsc_base::{NoMemory, Place, Width};
use std::alloc::Global;

/// What a conversion to this type does to a word: to a type of 1 or 2 bytes it narrows, to a pointer to a type that is complete here
/// it decides, and else the word stays. It takes no memory.
pub fn conversion_to(types: &TypeTable, kind: TypeId) -> Conversion {
    match sort_of(types, kind) {
        Sort::Integer { width, is_signed } => match width {
            Width::Four => Conversion::Keep,
            Width::One | Width::Two => Conversion::Narrow { width, is_signed },
        },
        Sort::Pointer(to) => {
            if is_complete(types, to) {
                Conversion::Decide(to)
            } else {
                Conversion::Keep
            }
        }
        Sort::Void | Sort::Array(_) | Sort::Record | Sort::Function(_) => Conversion::Keep,
    }
}

/// The tree below a conversion to this type, at its own place.
fn below_conversion(
    alloc: Global,
    types: &TypeTable,
    tree: TExpr,
    kind: TypeId,
    place: Place,
) -> Result<TExpr, NoMemory> {
    let conversion = conversion_to(types, kind);
    let form = Form::Convert(boxed(alloc, tree)?, conversion);
    Ok(TExpr { form, kind, place })
}

/// A value as one of this type: itself where it has that type already, and else below a conversion at its own place. Refused only for
/// want of memory.
pub fn converted(
    alloc: Global,
    types: &TypeTable,
    tree: TExpr,
    kind: TypeId,
) -> Result<TExpr, NoMemory> {
    if tree.kind == kind {
        return Ok(tree);
    }
    let place = tree.place;
    below_conversion(alloc, types, tree, kind, place)
}

/// `converted`, on a checked expression. What is converted is no bit-field any more.
pub fn convert(
    alloc: Global,
    types: &TypeTable,
    e: Typed,
    kind: TypeId,
) -> Result<Typed, NoMemory> {
    if e.tree.kind == kind {
        return Ok(e);
    }
    let place = e.tree.place;
    cast(alloc, types, e, kind, place)
}

/// The value below a conversion to this type, whatever type it has: a cast (C90 6.3.4). Refused only for want of memory.
pub fn cast(
    alloc: Global,
    types: &TypeTable,
    e: Typed,
    kind: TypeId,
    place: Place,
) -> Result<Typed, NoMemory> {
    let Typed { tree, pending, .. } = e;
    let TExpr { form, kind, place } = below_conversion(alloc, types, tree, kind, place)?;
    Ok(Typed::plain(form, kind, place, pending))
}
