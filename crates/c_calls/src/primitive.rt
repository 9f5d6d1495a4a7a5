//! Calls of primitives, whose names begin with `__fsc_`.

use c_conversion::{Parts, Typed, primitive_call};
use c_ops::Primitive;
use c_rules::fitted;
use c_types::{CHAR, INT, TypeId, TypeTable, UNSIGNED, VOID};
use check_refusal::{CheckRefused, CheckRule, broken};
use fsc_base::{Name, NoMemory, Place};
use std::alloc::Global;
use type_relations::qualified;

/// The types in the prototypes of primitives.
#[derive(Clone, Copy)]
pub enum Formal {
    Void,
    Int,
    Unsigned,
    /// `char *`.
    Text,
    /// `void *`.
    Address,
    /// `const void *`.
    ConstAddress,
}

/// The primitives with their names.
const NAMES: [(&[u8], Primitive); 9] = [
    (b"__fsc_put", Primitive::Put),
    (b"__fsc_get", Primitive::Get),
    (b"__fsc_alloc", Primitive::Alloc),
    (b"__fsc_release", Primitive::Release),
    (b"__fsc_size", Primitive::Size),
    (b"__fsc_copy", Primitive::Copy),
    (b"__fsc_exit", Primitive::Exit),
    (b"__fsc_abort", Primitive::Abort),
    (b"__fsc_va", Primitive::Extra),
];

/// The primitive of that name. It takes no memory.
pub fn primitive_named(name: &Name) -> Option<Primitive> {
    let name = name.as_slice();
    for (spelling, primitive) in NAMES {
        if spelling == name {
            return Some(primitive);
        }
    }
    None
}

/// What a primitive returns.
pub fn returned_by(primitive: Primitive) -> Formal {
    match primitive {
        Primitive::Put | Primitive::Get => Formal::Int,
        Primitive::Alloc => Formal::Address,
        Primitive::Size => Formal::Unsigned,
        Primitive::Release | Primitive::Copy | Primitive::Exit | Primitive::Abort => Formal::Void,
        Primitive::Extra => Formal::Text,
    }
}

/// The type of a primitive's parameter of this index, from 0; void where it has none.
pub fn formal_of(primitive: Primitive, at: u32) -> Formal {
    match (primitive, at) {
        (Primitive::Put | Primitive::Exit, 0) => Formal::Int,
        (Primitive::Alloc, 0) | (Primitive::Copy, 2) => Formal::Unsigned,
        (Primitive::Release | Primitive::Size | Primitive::Copy, 0) => Formal::Address,
        (Primitive::Copy, 1) => Formal::ConstAddress,
        _ => Formal::Void,
    }
}

/// That type in a table. Refused only for want of memory.
fn kind_of(alloc: Global, types: &mut TypeTable, formal: Formal) -> Result<TypeId, NoMemory> {
    match formal {
        Formal::Void => Ok(VOID),
        Formal::Int => Ok(INT),
        Formal::Unsigned => Ok(UNSIGNED),
        Formal::Text => types.pointer_to(CHAR),
        Formal::Address => types.pointer_to(VOID),
        Formal::ConstAddress => {
            let to = qualified(alloc, types, VOID, 1)?;
            types.pointer_to(to)
        }
    }
}

/// One more argument, converted to its parameter's type. L12 at the call where it does not fit.
fn pass(
    alloc: Global,
    types: &mut TypeTable,
    primitive: Primitive,
    before: &mut Parts,
    e: Typed,
    place: Place,
) -> Result<(), CheckRefused> {
    let kind = kind_of(alloc, types, formal_of(primitive, before.len()))?;
    before.push(fitted(alloc, types, kind, e, CheckRule::L12, place)?)?;
    Ok(())
}

/// All arguments, each converted to its parameter's type.
fn all_passed(
    alloc: Global,
    types: &mut TypeTable,
    primitive: Primitive,
    given: Vec<Typed>,
    place: Place,
) -> Result<Parts, CheckRefused> {
    let mut arguments = Parts::new(alloc);
    for e in given {
        pass(alloc, types, primitive, &mut arguments, e, place)?;
    }
    Ok(arguments)
}

/// A call of the primitive of that name with values. L12 where there is none of that name, the number of arguments is wrong, or one does
/// not fit its parameter.
pub fn call_primitive(
    alloc: Global,
    types: &mut TypeTable,
    name: &Name,
    given: Vec<Typed>,
    place: Place,
) -> Result<Typed, CheckRefused> {
    let Some(primitive) = primitive_named(name) else {
        return Err(broken(CheckRule::L12, place));
    };
    if primitive.arguments() as usize != given.len() {
        return Err(broken(CheckRule::L12, place));
    }
    let arguments = all_passed(alloc, types, primitive, given, place)?;
    let kind = kind_of(alloc, types, returned_by(primitive))?;
    Ok(primitive_call(primitive, arguments, kind, place))
}
