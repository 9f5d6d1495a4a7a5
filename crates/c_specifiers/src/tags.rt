//! Tags (C90 6.5.2.3).

use c_scope::{Entity, Scope, Space};
use c_syntax::RecordKind;
use c_types::{TypeId, TypeNode, TypeTable};
use check_refusal::{CheckRefused, CheckRule, broken};
use fsc_base::{Name, NoMemory, Place};
use std::alloc::Global;
use std::default::MadeWith;

/// Whether a type is a struct or a union as asked for.
fn is_record(types: &TypeTable, id: TypeId, kind: RecordKind) -> bool {
    match types.node(id) {
        TypeNode::Struct(_) => kind == RecordKind::Struct,
        TypeNode::Union(_) => kind == RecordKind::Union,
        _ => false,
    }
}

fn is_complete(types: &TypeTable, id: TypeId) -> bool {
    match types.node(id) {
        TypeNode::Struct(record) | TypeNode::Union(record) => record.is_complete,
        _ => false,
    }
}

fn is_enum(types: &TypeTable, id: TypeId) -> bool {
    matches!(types.node(id), TypeNode::Enum(_))
}

/// The type that a tag stands for.
fn tagged(entity: Option<Entity>) -> Option<TypeId> {
    match entity {
        Some(Entity::Tag(id)) => Some(id),
        _ => None,
    }
}

/// A copy of a tag; empty where there is none.
fn copied(alloc: Global, tag: Option<&Name>) -> Result<Name, NoMemory> {
    match tag {
        Some(tag) => Name::from_slice(alloc, tag.as_slice()),
        None => Ok(Name::made_with(alloc)),
    }
}

/// A new struct or union without members.
fn new_record(
    alloc: Global,
    types: &mut TypeTable,
    kind: RecordKind,
    tag: Option<&Name>,
) -> Result<TypeId, NoMemory> {
    let tag = copied(alloc, tag)?;
    match kind {
        RecordKind::Struct => types.add_struct(tag),
        RecordKind::Union => types.add_union(tag),
    }
}

/// Declares a new struct or union in the innermost scope.
fn declared_record(
    alloc: Global,
    scope: &mut Scope,
    kind: RecordKind,
    tag: &Name,
    place: Place,
) -> Result<TypeId, CheckRefused> {
    let id = new_record(alloc, &mut scope.types, kind, Some(tag))?;
    scope.declare_plain(Space::Tag, tag, Entity::Tag(id), place)?;
    Ok(id)
}

/// The type that `struct tag` or `union tag` names at a place, and whether this declares it: the visible one, or a new one that is
/// declared here. As the sole specifier of a declaration without declarators it asks the innermost scope alone. K03 where the
/// tag is one of another kind; L12 where a new one is kept for primitives.
pub fn record_tag(
    alloc: Global,
    scope: &mut Scope,
    kind: RecordKind,
    tag: &Name,
    is_sole: bool,
    place: Place,
) -> Result<(TypeId, bool), CheckRefused> {
    let found = if is_sole {
        scope.find_here(Space::Tag, tag)
    } else {
        scope.find(Space::Tag, tag)
    };
    match tagged(found) {
        Some(id) => {
            if !is_record(&scope.types, id, kind) {
                return Err(broken(CheckRule::K03, place));
            }
            Ok((id, false))
        }
        None => Ok((declared_record(alloc, scope, kind, tag, place)?, true)),
    }
}

/// The type that `struct tag {` or `union tag {` is the body of. K03 at the place where the innermost scope has the tag complete,
/// with its body open, or of another kind; L12 where a new one is kept for primitives.
fn named_body(
    alloc: Global,
    scope: &mut Scope,
    kind: RecordKind,
    tag: &Name,
    place: Place,
) -> Result<TypeId, CheckRefused> {
    match tagged(scope.find_here(Space::Tag, tag)) {
        Some(id) => {
            let is_fitting = is_record(&scope.types, id, kind);
            if !is_fitting || is_complete(&scope.types, id) || scope.is_open(id) {
                return Err(broken(CheckRule::K03, place));
            }
            Ok(id)
        }
        None => declared_record(alloc, scope, kind, tag, place),
    }
}

/// The type that a body of a struct or union is the body of, as of one with a tag; without one it is new.
pub fn record_body(
    alloc: Global,
    scope: &mut Scope,
    kind: RecordKind,
    tag: &Option<Name>,
    place: Place,
) -> Result<TypeId, CheckRefused> {
    match tag {
        Some(tag) => named_body(alloc, scope, kind, tag, place),
        None => Ok(new_record(alloc, &mut scope.types, kind, None)?),
    }
}

/// The type that `enum tag` names. At the place K19 where the tag is not visible, or its body is open, and K03 where it is one of
/// another kind.
pub fn enum_tag(scope: &Scope, tag: &Name, place: Place) -> Result<TypeId, CheckRefused> {
    let Some(id) = tagged(scope.find(Space::Tag, tag)) else {
        return Err(broken(CheckRule::K19, place));
    };
    if !is_enum(&scope.types, id) {
        return Err(broken(CheckRule::K03, place));
    }
    if scope.is_open(id) {
        return Err(broken(CheckRule::K19, place));
    }
    Ok(id)
}

/// The new type that a body of an enum is the body of. K03 at the place where the innermost scope has the tag, L12 where it is
/// kept for primitives.
pub fn enum_body(
    alloc: Global,
    scope: &mut Scope,
    tag: &Option<Name>,
    place: Place,
) -> Result<TypeId, CheckRefused> {
    let id = scope.types.add_enum(copied(alloc, tag.as_ref())?)?;
    if let Some(tag) = tag {
        scope.declare_plain(Space::Tag, tag, Entity::Tag(id), place)?;
    }
    Ok(id)
}
