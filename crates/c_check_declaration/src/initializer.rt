//! Initialisers (C90 6.5.7).

use crate::knot::needed;
use c_init::{LaidOut, layout_init};
use c_scope::Scope;
use c_syntax::{Expr, ExprForm, Initializer, InitializerForm};
use c_tree::{Initial, Piece};
use c_types::{CHAR, LayoutNo, TypeId, TypeNode};
use check_refusal::{CheckRefused, CheckRule, broken};
use fsc_base::{Bytes, Place};
use sqlite_items::Items;
use std::alloc::Global;

/// The type of a string literal: an array of char with a zero at its end. L05 at the place where it would be too large.
fn text_kind(scope: &mut Scope, bytes: &Bytes, place: Place) -> Result<TypeId, CheckRefused> {
    let Ok(count) = u32::try_from(bytes.as_slice().len()) else {
        return Err(broken(CheckRule::L05, place));
    };
    array(scope, CHAR, count.saturating_add(1), place)
}

/// An array of so many elements. L05 at the place where it would be too large.
fn array(scope: &mut Scope, of: TypeId, count: u32, place: Place) -> Result<TypeId, CheckRefused> {
    match scope.types.array_of(of, count) {
        Ok(kind) => Ok(kind),
        Err(LayoutNo::NoMemory) => Err(CheckRefused::NoMemory),
        Err(LayoutNo::Large | LayoutNo::Part | LayoutNo::NotIncomplete) => {
            Err(broken(CheckRule::L05, place))
        }
    }
}

/// A string that is a whole item, with its draft.
fn text(
    alloc: Global,
    scope: &mut Scope,
    bytes: &Bytes,
    place: Place,
) -> Result<Initial, CheckRefused> {
    let kind = text_kind(scope, bytes, place)?;
    let draft = scope.draft_text(bytes, kind, place)?;
    let bytes = Bytes::from_slice(alloc, bytes.as_slice())?;
    Ok(Initial::Text(bytes, draft, place))
}

/// An item that is an expression.
fn item(alloc: Global, scope: &mut Scope, e: &Expr, place: Place) -> Result<Initial, CheckRefused> {
    match &e.form {
        ExprForm::Text(bytes) => text(alloc, scope, bytes, place),
        _ => {
            let value = needed(alloc, scope, e)?;
            Ok(Initial::One(value.tree, place))
        }
    }
}

/// The items in braces.
#[cycle(initials)]
fn initials(
    alloc: Global,
    scope: &mut Scope,
    items: &[Initializer],
) -> Result<Items<Initial>, CheckRefused> {
    let mut initials = Items::new(alloc);
    for item in items {
        initials.push(initial(alloc, scope, item)?)?;
    }
    Ok(initials)
}

/// An initialiser, typed.
#[cycle(initials)]
fn initial(alloc: Global, scope: &mut Scope, given: &Initializer) -> Result<Initial, CheckRefused> {
    match &given.form {
        InitializerForm::One(e) => item(alloc, scope, e, given.place),
        InitializerForm::Many(items) => Ok(Initial::Many(
            initials(alloc, scope, items.as_slice())?,
            given.place,
        )),
    }
}

/// The element of an array of unknown size.
fn unsized_element(scope: &Scope, kind: TypeId) -> Option<TypeId> {
    match scope.types.node(kind) {
        TypeNode::Array { of, count: 0 } => Some(*of),
        _ => None,
    }
}

/// Strings that fill arrays make no objects.
fn drop_texts(scope: &mut Scope, drafts: &[u32]) {
    for draft in drafts {
        scope.drop_text(*draft);
    }
}

/// The type that an initialiser gives its object: an array of unknown size has as many elements as it fills. L05 at the place where
/// that is too large.
fn completed(
    scope: &mut Scope,
    kind: TypeId,
    count: u32,
    place: Place,
) -> Result<TypeId, CheckRefused> {
    match unsized_element(scope, kind) {
        Some(of) => array(scope, of, count, place),
        None => Ok(kind),
    }
}

/// What an initialiser stores in an object of a type, and the type that the object has then. K14 at an item that is one too many, does
/// not fit or, where the object is static, is not constant; L05 at the initialiser where it makes an array too large.
pub fn laid_out(
    alloc: Global,
    scope: &mut Scope,
    kind: TypeId,
    given: &Initializer,
    is_static: bool,
) -> Result<(TypeId, Items<Piece>), CheckRefused> {
    let place = given.place;
    let given = initial(alloc, scope, given)?;
    let LaidOut {
        pieces,
        count,
        spent,
    } = layout_init(alloc, &mut scope.types, kind, given, is_static)?;
    drop_texts(scope, spent.as_slice());
    Ok((completed(scope, kind, count, place)?, pieces))
}
