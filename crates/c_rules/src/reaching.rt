//! What leads from a value to an object: subscripts, members, `*` and `&` (C90 6.3.2.1, 6.3.2.3, 6.3.3.2).

use crate::operand::{Operand, Target, operand_of};
use c_conversion::{
    BitField, Category, Element, Sort, Typed, address_of, arrow, category_of, dereference, dot,
    index, own_qualifiers, promoted, sort_of, unqualified,
};
use c_tree::{Member, Side};
use c_types::{TypeId, TypeTable};
use check_refusal::{CheckRefused, CheckRule, broken};
use fsc_base::{Name, NoMemory, Place};
use std::alloc::Global;
use type_relations::qualified;

/// What a subscript on these reaches; None where it is no pointer to a complete object type with an integer.
pub fn element_of(left: Operand, right: Operand) -> Option<Element> {
    let (pointer, operand) = match (left, right) {
        (Operand::Pointer { .. }, Operand::Integer) => (Side::Left, left),
        (Operand::Integer, Operand::Pointer { .. }) => (Side::Right, right),
        _ => return None,
    };
    match operand {
        Operand::Pointer {
            to,
            target: Target::Object(size),
        } => Some(Element {
            pointer,
            kind: to,
            size,
        }),
        _ => None,
    }
}

/// A subscript on a pointer and an integer, which is promoted.
fn reached(
    alloc: Global,
    types: &TypeTable,
    left: Typed,
    right: Typed,
    element: Element,
    place: Place,
) -> Result<Typed, NoMemory> {
    let (left, right) = match element.pointer {
        Side::Left => (left, promoted(alloc, types, right)?),
        Side::Right => (promoted(alloc, types, left)?, right),
    };
    index(alloc, left, right, element, place)
}

/// `a[b]`, for values a and b (C90 6.3.2.1). K20 where they are no pointer to a complete object type and an integer.
pub fn subscript(
    alloc: Global,
    types: &TypeTable,
    left: Typed,
    right: Typed,
    place: Place,
) -> Result<Typed, CheckRefused> {
    let element = element_of(
        operand_of(types, left.tree.kind),
        operand_of(types, right.tree.kind),
    );
    match element {
        Some(element) => Ok(reached(alloc, types, left, right, element, place)?),
        None => Err(broken(CheckRule::K20, place)),
    }
}

/// A member of a struct or union, as an expression of that type has it.
#[derive(Clone, Copy)]
pub struct Found {
    pub member: Member,
    /// Its declared type.
    pub kind: TypeId,
    pub bits: Option<BitField>,
}

/// The member of that name of a type; None where it is no complete struct or union, or has no such member. It takes no memory.
pub fn member_of(types: &TypeTable, record: TypeId, name: &Name) -> Option<Found> {
    match types.find_member(record, name) {
        Some(member) => Some(Found {
            member: Member {
                offset: member.offset,
                record: unqualified(types, record),
            },
            kind: member.kind,
            bits: if member.count == 0 {
                None
            } else {
                Some(BitField {
                    first: member.first,
                    count: member.count,
                })
            },
        }),
        None => None,
    }
}

/// The type of a member, with the qualifiers of its struct or union (C90 6.3.2.3). Refused only for want of memory.
fn member_kind(
    alloc: Global,
    types: &mut TypeTable,
    record: TypeId,
    kind: TypeId,
) -> Result<TypeId, NoMemory> {
    let bits = own_qualifiers(types, record);
    qualified(alloc, types, kind, bits)
}

/// `e.m` (C90 6.3.2.3). K22 where e is no complete struct or union, or has no such member.
pub fn member(
    alloc: Global,
    types: &mut TypeTable,
    record: Typed,
    name: &Name,
    place: Place,
) -> Result<Typed, CheckRefused> {
    let of = record.tree.kind;
    let Some(found) = member_of(types, of, name) else {
        return Err(broken(CheckRule::K22, place));
    };
    let kind = member_kind(alloc, types, of, found.kind)?;
    Ok(dot(alloc, record, found.member, found.bits, kind, place)?)
}

/// The type that a value points to, where it is a pointer. It takes no memory.
fn pointee(types: &TypeTable, pointer: &Typed) -> Option<TypeId> {
    match sort_of(types, pointer.tree.kind) {
        Sort::Pointer(to) => Some(to),
        _ => None,
    }
}

/// What `->` reaches: the type that the value points to, and its member of that name.
fn member_behind(types: &TypeTable, pointer: &Typed, name: &Name) -> Option<(TypeId, Found)> {
    let of = pointee(types, pointer)?;
    let found = member_of(types, of, name)?;
    Some((of, found))
}

/// `e->m`, for a value e (C90 6.3.2.3). K22 where e is no pointer to a complete struct or union, or that has no such member.
pub fn pointer_member(
    alloc: Global,
    types: &mut TypeTable,
    pointer: Typed,
    name: &Name,
    place: Place,
) -> Result<Typed, CheckRefused> {
    let Some((of, found)) = member_behind(types, &pointer, name) else {
        return Err(broken(CheckRule::K22, place));
    };
    let kind = member_kind(alloc, types, of, found.kind)?;
    Ok(arrow(alloc, pointer, found.member, found.bits, kind, place)?)
}

/// `*e`, for a value e (C90 6.3.3.2). K25 where it is no pointer.
pub fn indirection(
    alloc: Global,
    types: &TypeTable,
    pointer: Typed,
    place: Place,
) -> Result<Typed, CheckRefused> {
    match pointee(types, &pointer) {
        Some(to) => Ok(dereference(alloc, pointer, to, place)?),
        None => Err(broken(CheckRule::K25, place)),
    }
}

/// Whether `&` may take its address: it is a function or an lvalue, no bit-field, and nothing that was declared `register`. It takes
/// no memory.
pub fn has_address(types: &TypeTable, e: &Typed) -> bool {
    category_of(types, &e.tree) != Category::Plain && !e.is_bit_field() && !e.is_register
}

/// `&e` (C90 6.3.3.2). K24 where e is neither a function nor an lvalue, or is a bit-field or of an object declared `register`.
pub fn address(
    alloc: Global,
    types: &mut TypeTable,
    e: Typed,
    place: Place,
) -> Result<Typed, CheckRefused> {
    if !has_address(types, &e) {
        return Err(broken(CheckRule::K24, place));
    }
    let kind = types.pointer_to(e.tree.kind)?;
    Ok(address_of(alloc, e, kind, place)?)
}
