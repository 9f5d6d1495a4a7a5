//! The items of initialisers.

use crate::frame::Slot;
use crate::sort::{Sort, sort_of, unqualified};
use c_tree::{Initial, TExpr};
use c_types::{TypeId, TypeTable};
use fsc_base::{NoMemory, Place};
use sqlite_items::Items;
use std::alloc::Global;

/// What an item is, in short.
#[derive(Clone, Copy, Debug, PartialEq, Eq)]
pub(crate) enum ItemForm {
    /// An expression of this type.
    One(TypeId),
    /// A string.
    Text,
    /// Items in braces.
    Many,
}

/// An item that is looked at.
#[derive(Clone, Copy, Debug, PartialEq, Eq)]
pub(crate) struct Item {
    pub form: ItemForm,
    pub place: Place,
}

impl Item {
    /// What that item is.
    pub fn of(initial: &Initial) -> Item {
        match initial {
            Initial::One(e, place) => Item::one(e, *place),
            Initial::Text(_, _, place) => Item {
                form: ItemForm::Text,
                place: *place,
            },
            Initial::Many(_, place) => Item {
                form: ItemForm::Many,
                place: *place,
            },
        }
    }

    /// An expression.
    fn one(e: &TExpr, place: Place) -> Item {
        Item {
            form: ItemForm::One(e.kind),
            place,
        }
    }

    /// Whether it fills this part as a whole, and not the parts of it from its first on (C90 6.5.7).
    pub fn fills(self, types: &TypeTable, slot: Slot) -> bool {
        match self.form {
            ItemForm::Many => true,
            ItemForm::Text => text_fills(sort_of(types, slot.kind)),
            ItemForm::One(kind) => one_fills(types, slot.kind, kind),
        }
    }
}

/// A string fills an array of characters, and points to its own bytes elsewhere.
fn text_fills(sort: Sort) -> bool {
    match sort {
        Sort::Array(elements) => elements.are_characters,
        Sort::Struct(_) | Sort::Union(_) => false,
        Sort::Scalar(_) | Sort::Neither => true,
    }
}

/// An expression of a struct or union type fills a struct or union of that type.
fn one_fills(types: &TypeTable, target: TypeId, kind: TypeId) -> bool {
    match sort_of(types, target) {
        Sort::Struct(_) | Sort::Union(_) => is_same_record(types, target, kind),
        Sort::Array(_) => false,
        Sort::Scalar(_) | Sort::Neither => true,
    }
}

/// Within a unit a struct or union is compatible with no other (C90 6.1.2.6).
pub(crate) fn is_same_record(types: &TypeTable, one: TypeId, other: TypeId) -> bool {
    unqualified(types, one) == unqualified(types, other)
}

/// Where an item begins.
pub(crate) fn place_of(initial: &Initial) -> Place {
    Item::of(initial).place
}

/// Whether the items are one string.
pub(crate) fn is_one_text(items: &[Initial]) -> bool {
    match items {
        [Initial::Text(_, _, _)] => true,
        _ => false,
    }
}

/// The same items, the last one first. Refused only for want of memory.
pub(crate) fn reversed(alloc: Global, items: Items<Initial>) -> Result<Items<Initial>, NoMemory> {
    let mut items = items;
    let mut turned = Items::new(alloc);
    for _ in 0..items.len() {
        match items.pop() {
            Some(item) => turned.push(item)?,
            None => break,
        }
    }
    Ok(turned)
}
