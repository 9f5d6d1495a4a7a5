//! Values of items.

use crate::sort::unqualified;
use c_const::constant;
use c_conversion::converted;
use c_ops::narrowed;
use c_rules::{Fit, fits};
use c_tree::{Form, Symbol, TExpr};
use c_types::{Basic, CHAR, LayoutNo, TypeId, TypeNode, TypeTable};
use check_refusal::{CheckRefused, CheckRule, broken};
use fsc_base::{NoMemory, Place, Width, Word};
use sqlite_items::Boxed;
use std::alloc::Global;

/// The refusal of an item.
pub(crate) fn wrong(place: Place) -> CheckRefused {
    broken(CheckRule::K14, place)
}

/// A string that stands for a pointer to the first of its characters (C90 6.2.2.1). Its object is that of the draft. L05 where it
/// has more than 2^27 bytes.
pub(crate) fn text_pointer(
    alloc: Global,
    types: &mut TypeTable,
    length: usize,
    draft: u32,
    place: Place,
) -> Result<TExpr, CheckRefused> {
    let array = text_kind(types, length, place)?;
    let kind = types.pointer_to(CHAR)?;
    let text = TExpr {
        form: Form::Static(Symbol::Object(draft)),
        kind: array,
        place,
    };
    let form = Form::Decay(Boxed::new(alloc, text)?);
    Ok(TExpr { form, kind, place })
}

/// The type of a string of so many characters, with a zero behind them (C90 6.1.4).
fn text_kind(types: &mut TypeTable, length: usize, place: Place) -> Result<TypeId, CheckRefused> {
    if length >= 0x0800_0000 {
        return Err(broken(CheckRule::L05, place));
    }
    let count = (length as u32).saturating_add(1);
    match types.array_of(CHAR, count) {
        Ok(kind) => Ok(kind),
        Err(LayoutNo::NoMemory) => Err(CheckRefused::NoMemory),
        Err(LayoutNo::Part | LayoutNo::Large | LayoutNo::NotIncomplete) => Err(broken(
            CheckRule::L05,
            place,
        )),
    }
}

/// A value as one of the target's type. K14 at its place where it does not fit, or is no constant where a static object needs one.
pub(crate) fn fitted(
    alloc: Global,
    types: &TypeTable,
    target: TypeId,
    e: TExpr,
    is_static: bool,
    place: Place,
) -> Result<TExpr, CheckRefused> {
    check_fit(alloc, types, target, &e, place)?;
    let value = converted(alloc, types, e, unqualified(types, target))?;
    if is_static && constant(types, &value).is_none() {
        return Err(wrong(place));
    }
    Ok(value)
}

/// K14 where a value does not fit a scalar (C90 6.5.7, 6.3.16.1).
fn check_fit(
    alloc: Global,
    types: &TypeTable,
    target: TypeId,
    e: &TExpr,
    place: Place,
) -> Result<(), CheckRefused> {
    match fits(alloc, types, target, e)? {
        Fit::Integers | Fit::Pointers | Fit::Null => Ok(()),
        Fit::Records | Fit::Not => Err(wrong(place)),
    }
}

/// A character as a value of a character type.
pub(crate) fn character(types: &TypeTable, kind: TypeId, byte: u8, place: Place) -> TExpr {
    let kind = unqualified(types, kind);
    let word = Word {
        value: u32::from(byte),
        block: 0,
    };
    let is_signed = matches!(types.node(kind), TypeNode::Basic(Basic::SignedChar));
    TExpr {
        form: Form::Number(narrowed(Width::One, is_signed, word).value),
        kind,
        place,
    }
}
