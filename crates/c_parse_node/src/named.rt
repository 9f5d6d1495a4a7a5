//! Type names and parameters (C90 6.5.4.3, 6.5.5), and the names that declarators declare.

use c_cursor::{Read, TypeNames, outside};
use c_syntax::{Declarator, Parameter, Specifier, TypeName};
use fsc_base::{NoMemory, Place};
use sqlite_items::Items;

/// A type name of specifiers and a declarator.
pub fn type_name(
    place: Place,
    specifiers: Read<Items<Specifier>>,
    declarator: Option<Read<Declarator>>,
) -> Read<TypeName> {
    let (declarator, height) = match declarator {
        Some(read) => (Some(read.node), read.height),
        None => (None, 0),
    };
    Read {
        node: TypeName {
            place,
            specifiers: specifiers.node,
            declarator,
        },
        height: outside(specifiers.height, height),
    }
}

/// A parameter.
pub fn parameter(
    place: Place,
    specifiers: Read<Items<Specifier>>,
    declarator: Option<Read<Declarator>>,
) -> Read<Parameter> {
    let (declarator, height) = match declarator {
        Some(read) => (Some(read.node), read.height),
        None => (None, 0),
    };
    Read {
        node: Parameter {
            place,
            specifiers: specifiers.node,
            declarator,
        },
        height: outside(specifiers.height, height),
    }
}

/// Declares the name of a declarator, where it has one, as a type or as anything else. Refused only for want of memory.
pub fn declare(
    names: &mut TypeNames,
    declarator: &Declarator,
    is_type: bool,
) -> Result<(), NoMemory> {
    match declarator.name() {
        Some(name) => names.declare(name, is_type),
        None => Ok(()),
    }
}
