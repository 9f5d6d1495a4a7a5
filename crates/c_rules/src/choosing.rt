//! `?:` (C90 6.3.15).

use crate::fitting::is_void_with;
use crate::operand::{Operand, Pair, Target, pair_of};
use c_conversion::{Typed, choose, convert, is_scalar, own_qualifiers, unqualified, usual};
use c_types::{TypeId, TypeTable, VOID};
use check_refusal::{CheckRefused, CheckRule, broken};
use fsc_base::{NoMemory, Place};
use std::alloc::Global;
use type_relations::{composite, qualified};

/// What type `?:` has.
#[derive(Clone, Copy)]
pub enum Choice {
    Integers,
    Voids,
    Records,
    /// The left one's: the right one is a null pointer constant.
    ToLeft,
    ToRight,
    /// A pointer to the composite of these types, with the qualifiers of both.
    Composite(TypeId, TypeId),
    /// A pointer to void, with the qualifiers of these types.
    ToVoid(TypeId, TypeId),
    Wrong,
}

/// What two pointers become, neither of which is a null pointer constant beside the other.
fn choice_of_pointers(
    agree: bool,
    left: TypeId,
    left_target: Target,
    right: TypeId,
    right_target: Target,
) -> Choice {
    if agree {
        Choice::Composite(left, right)
    } else if is_void_with(left_target, right_target) || is_void_with(right_target, left_target) {
        Choice::ToVoid(left, right)
    } else {
        Choice::Wrong
    }
}

/// What values become of which at least one is a pointer.
fn choice_with_pointer(pair: Pair) -> Choice {
    if pair.left_is_null {
        return Choice::ToRight;
    }
    if pair.right_is_null {
        return Choice::ToLeft;
    }
    match (pair.left, pair.right) {
        (
            Operand::Pointer {
                to: left,
                target: left_target,
            },
            Operand::Pointer {
                to: right,
                target: right_target,
            },
        ) => choice_of_pointers(pair.agree, left, left_target, right, right_target),
        _ => Choice::Wrong,
    }
}

/// What type `?:` has over these: integers, both void, both of one struct or union type, or pointers.
pub fn choice_of(pair: Pair) -> Choice {
    match (pair.left, pair.right) {
        (Operand::Integer, Operand::Integer) => Choice::Integers,
        (Operand::Void, Operand::Void) => Choice::Voids,
        (Operand::Record, Operand::Record) => {
            if pair.is_same {
                Choice::Records
            } else {
                Choice::Wrong
            }
        }
        (Operand::Pointer { .. }, _) | (_, Operand::Pointer { .. }) => choice_with_pointer(pair),
        _ => Choice::Wrong,
    }
}

/// The qualifiers of both types.
fn qualifiers_of_both(types: &TypeTable, left: TypeId, right: TypeId) -> u32 {
    own_qualifiers(types, left) | own_qualifiers(types, right)
}

/// The pointer to the type with these qualifiers.
fn pointer_to(
    alloc: Global,
    types: &mut TypeTable,
    to: TypeId,
    bits: u32,
) -> Result<TypeId, NoMemory> {
    let to = qualified(alloc, types, to, bits)?;
    types.pointer_to(to)
}

/// The pointer to the composite of both types, with the qualifiers of both.
fn composite_pointer(
    alloc: Global,
    types: &mut TypeTable,
    left: TypeId,
    right: TypeId,
) -> Result<TypeId, NoMemory> {
    let bits = qualifiers_of_both(types, left, right);
    let left = unqualified(types, left);
    let right = unqualified(types, right);
    let to = composite(alloc, types, left, right)?;
    pointer_to(alloc, types, to, bits)
}

/// The type that `?:` has. K30 where the operands are wrong.
fn kind_of(
    alloc: Global,
    types: &mut TypeTable,
    choice: Choice,
    yes: &Typed,
    no: &Typed,
    place: Place,
) -> Result<TypeId, CheckRefused> {
    Ok(match choice {
        Choice::Integers => usual(types, yes, no),
        Choice::Voids => VOID,
        Choice::Records => unqualified(types, yes.tree.kind),
        Choice::ToLeft => yes.tree.kind,
        Choice::ToRight => no.tree.kind,
        Choice::Composite(left, right) => composite_pointer(alloc, types, left, right)?,
        Choice::ToVoid(left, right) => {
            let bits = qualifiers_of_both(types, left, right);
            pointer_to(alloc, types, VOID, bits)?
        }
        Choice::Wrong => return Err(broken(CheckRule::K30, place)),
    })
}

/// The type of `?:`, and whether its second and third operands are converted to it: they are scalar.
#[derive(Clone, Copy)]
struct Chosen {
    kind: TypeId,
    is_converted: bool,
}

/// The type that `?:` has over these values. K30 where they are wrong.
fn chosen_of(
    alloc: Global,
    types: &mut TypeTable,
    yes: &Typed,
    no: &Typed,
    place: Place,
) -> Result<Chosen, CheckRefused> {
    let choice = choice_of(pair_of(alloc, types, &yes.tree, &no.tree)?);
    Ok(Chosen {
        kind: kind_of(alloc, types, choice, yes, no, place)?,
        is_converted: !matches!(choice, Choice::Voids | Choice::Records),
    })
}

/// `a ? b : c` of this type, to which the second and third operands are converted.
fn converted_choice(
    alloc: Global,
    types: &TypeTable,
    test: Typed,
    yes: Typed,
    no: Typed,
    kind: TypeId,
    place: Place,
) -> Result<Typed, NoMemory> {
    let yes = convert(alloc, types, yes, kind)?;
    let no = convert(alloc, types, no, kind)?;
    choose(alloc, test, yes, no, kind, place)
}

/// `a ? b : c` of this type.
fn choice_as(
    alloc: Global,
    types: &TypeTable,
    test: Typed,
    yes: Typed,
    no: Typed,
    chosen: Chosen,
    place: Place,
) -> Result<Typed, NoMemory> {
    if chosen.is_converted {
        converted_choice(alloc, types, test, yes, no, chosen.kind, place)
    } else {
        choose(alloc, test, yes, no, chosen.kind, place)
    }
}

/// `a ? b : c`, for a scalar a.
fn scalar_conditional(
    alloc: Global,
    types: &mut TypeTable,
    test: Typed,
    yes: Typed,
    no: Typed,
    place: Place,
) -> Result<Typed, CheckRefused> {
    let chosen = chosen_of(alloc, types, &yes, &no, place)?;
    Ok(choice_as(alloc, types, test, yes, no, chosen, place)?)
}

/// `a ? b : c`, for values a, b and c (C90 6.3.15). K30 where the operands are wrong.
pub fn conditional(
    alloc: Global,
    types: &mut TypeTable,
    test: Typed,
    yes: Typed,
    no: Typed,
    place: Place,
) -> Result<Typed, CheckRefused> {
    if is_scalar(types, test.tree.kind) {
        scalar_conditional(alloc, types, test, yes, no, place)
    } else {
        Err(broken(CheckRule::K30, place))
    }
}
