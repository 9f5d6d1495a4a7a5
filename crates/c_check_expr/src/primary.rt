//! Names, constants and string literals (C90 6.3.1).

use c_conversion::{Typed, local, number, static_object};
use c_lexer::BasicType;
use c_scope::{Entity, Scope, Space, is_reserved};
use c_tree::Symbol;
use c_types::{CHAR, INT, LONG, LayoutNo, TypeId, UNSIGNED, UNSIGNED_LONG};
use check_refusal::{CheckRefused, CheckRule, broken};
use fsc_base::{Bytes, Name, Place};

/// What a name stands for: an object or function, an automatic name, or an enumerator. K19 for what is a type.
fn named(scope: &mut Scope, entity: Entity, place: Place) -> Result<Typed, CheckRefused> {
    match entity {
        Entity::Object(symbol, kind) => {
            scope.mark_used(symbol);
            Ok(static_object(symbol, kind, place))
        }
        Entity::Local(index, kind, is_register) => Ok(local(index, kind, is_register, place)),
        Entity::Constant(value) => Ok(number(value, INT, place)),
        Entity::Typedef(_) | Entity::Tag(_) => Err(broken(CheckRule::K19, place)),
    }
}

/// A name. L12 where it is kept for primitives, K19 where it is not declared.
pub(crate) fn name(scope: &mut Scope, name: &Name, place: Place) -> Result<Typed, CheckRefused> {
    if is_reserved(name) {
        return Err(broken(CheckRule::L12, place));
    }
    match scope.find(Space::Ordinary, name) {
        Some(entity) => named(scope, entity, place),
        None => Err(broken(CheckRule::K19, place)),
    }
}

/// The type of an integer constant in a table.
fn kind_of(basic: BasicType) -> TypeId {
    match basic {
        BasicType::Int => INT,
        BasicType::Unsigned => UNSIGNED,
        BasicType::Long => LONG,
        BasicType::UnsignedLong => UNSIGNED_LONG,
    }
}

/// An integer constant.
pub(crate) fn integer(value: u32, basic: BasicType, place: Place) -> Typed {
    number(value, kind_of(basic), place)
}

/// The type of a string literal, with its closing zero. L05 where it is too large.
fn text_kind(scope: &mut Scope, length: usize, place: Place) -> Result<TypeId, CheckRefused> {
    let Ok(count) = u32::try_from(length.saturating_add(1)) else {
        return Err(broken(CheckRule::L05, place));
    };
    match scope.types.array_of(CHAR, count) {
        Ok(kind) => Ok(kind),
        Err(LayoutNo::NoMemory) => Err(CheckRefused::NoMemory),
        Err(LayoutNo::Part | LayoutNo::Large | LayoutNo::NotIncomplete) => {
            Err(broken(CheckRule::L05, place))
        }
    }
}

/// A string literal, which is an object of type array of char (C90 6.1.4).
pub(crate) fn text(scope: &mut Scope, bytes: &Bytes, place: Place) -> Result<Typed, CheckRefused> {
    let kind = text_kind(scope, bytes.as_slice().len(), place)?;
    let draft = scope.draft_text(bytes, kind, place)?;
    Ok(static_object(Symbol::Object(draft), kind, place))
}
