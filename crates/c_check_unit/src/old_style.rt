//! Definitions with a list of names (C90 6.7.1).

use crate::definition::Opened;
use crate::prototype::count;
use c_check_declaration::{declared, name_of, specified};
use c_check_type::{Specified, adjusted};
use c_scope::{Entity, LinkedName, Scope, Space, is_reserved};
use c_syntax::{
    Declaration, Declarator, Function, InitDeclarator, ListedName, Part, PartForm, Storage,
};
use c_types::{Basic, INT, TypeId, TypeNode, TypeTable};
use check_refusal::{CheckRefused, CheckRule, broken};
use fsc_base::{Name, NoMemory, Place};
use indexmap::IndexMap;
use std::alloc::Global;
use type_relations::unqualified;

/// The most parameters of a function.
const LARGEST: usize = 63;

/// The listed names, each with its type where a declaration gave it one.
#[derive(Drop)]
struct Listed {
    alloc: Global,
    names: IndexMap<Vec<u8>, Option<TypeId>>,
}

impl Listed {
    fn new(alloc: Global) -> Listed {
        Listed {
            alloc,
            names: IndexMap::new(alloc),
        }
    }

    /// A further name. At it L12 where it is kept for primitives, K03 where it stands before.
    fn add(&mut self, listed: &ListedName) -> Result<(), CheckRefused> {
        let name = listed.name.as_slice();
        if is_reserved(&listed.name) {
            return Err(broken(CheckRule::L12, listed.place));
        }
        if self.names.contains_key(name) {
            return Err(broken(CheckRule::K03, listed.place));
        }
        let _ = self.names.insert(Vec::from_slice(self.alloc, name)?, None)?;
        Ok(())
    }

    /// A listed name's index and its type so far.
    fn find(&self, name: &Name) -> Option<(usize, Option<TypeId>)> {
        let (index, _, kind) = self.names.get_full(name.as_slice())?;
        Some((index, *kind))
    }

    /// A name gets its type.
    fn set(&mut self, name: &Name, kind: TypeId) {
        if let Some(known) = self.names.get_mut(name.as_slice()) {
            *known = Some(kind);
        }
    }
}

/// The names of a list.
fn read_names(alloc: Global, names: &[ListedName]) -> Result<Listed, CheckRefused> {
    let mut listed = Listed::new(alloc);
    for name in names {
        listed.add(name)?;
    }
    Ok(listed)
}

/// The list of names behind a declarator's name.
fn own_names(parts: &[Part]) -> Option<(&[ListedName], Place)> {
    for part in parts {
        if let PartForm::Names(names) = &part.form {
            return Some((names.as_slice(), part.place));
        }
    }
    None
}

/// K17 at a storage class that is not register.
fn can_store(specified: &Specified) -> Result<(), CheckRefused> {
    match specified.storage {
        None | Some(Storage::Register) => Ok(()),
        Some(Storage::Typedef)
        | Some(Storage::Extern)
        | Some(Storage::Static)
        | Some(Storage::Auto) => Err(broken(CheckRule::K17, specified.storage_place)),
    }
}

/// The index of a declared parameter. At the declarator K17 where it is not listed, K03 where it is declared before.
fn index_of(listed: &Listed, name: &Name, place: Place) -> Result<u32, CheckRefused> {
    match listed.find(name) {
        Some((index, None)) => count(index),
        Some((_, Some(_))) => Err(broken(CheckRule::K03, place)),
        None => Err(broken(CheckRule::K17, place)),
    }
}

/// A parameter's adjusted type. K18 at the declarator where it is not complete.
fn complete_kind(scope: &mut Scope, kind: TypeId, place: Place) -> Result<TypeId, CheckRefused> {
    let kind = adjusted(&mut scope.types, kind)?;
    match scope.types.size(kind) {
        Some(_) => Ok(kind),
        None => Err(broken(CheckRule::K18, place)),
    }
}

/// Declares a parameter of a type. At its declarator K17 where it is not listed, K03 where it is declared, K18 where its type is not
/// complete.
fn declare_parameter(
    scope: &mut Scope,
    listed: &mut Listed,
    declarator: &Declarator,
    kind: TypeId,
    is_register: bool,
) -> Result<(), CheckRefused> {
    let place = declarator.place;
    let name = name_of(declarator)?;
    let index = index_of(listed, name, place)?;
    let kind = complete_kind(scope, kind, place)?;
    listed.set(name, kind);
    scope.declare_plain(
        Space::Ordinary,
        name,
        Entity::Local(index, kind, is_register),
        place,
    )
}

/// A declarator of a parameter. K17 at it where it has an initialiser.
fn init_declarator(
    alloc: Global,
    scope: &mut Scope,
    listed: &mut Listed,
    specified: &Specified,
    init: &InitDeclarator,
) -> Result<(), CheckRefused> {
    let kind = declared(alloc, scope, &init.declarator, specified.kind)?;
    if init.initial.is_some() {
        return Err(broken(CheckRule::K17, init.declarator.place));
    }
    let is_register = specified.storage.is_some();
    declare_parameter(scope, listed, &init.declarator, kind, is_register)
}

/// A declaration of parameters. K17 at it where it has no declarators.
fn declare(
    alloc: Global,
    scope: &mut Scope,
    listed: &mut Listed,
    declaration: &Declaration,
) -> Result<(), CheckRefused> {
    let is_alone = declaration.inits.is_empty();
    let list = declaration.specifiers.as_slice();
    let specified = specified(alloc, scope, list, is_alone, declaration.place)?;
    can_store(&specified)?;
    if is_alone {
        return Err(broken(CheckRule::K17, declaration.place));
    }
    for init in declaration.inits.as_slice() {
        init_declarator(alloc, scope, listed, &specified, init)?;
    }
    Ok(())
}

/// The declarations of parameters.
fn declare_all(
    alloc: Global,
    scope: &mut Scope,
    listed: &mut Listed,
    declarations: &[Declaration],
) -> Result<(), CheckRefused> {
    for declaration in declarations {
        declare(alloc, scope, listed, declaration)?;
    }
    Ok(())
}

/// A listed name that no declaration has is an int.
fn declare_missing(
    scope: &mut Scope,
    listed: &mut Listed,
    name: &Name,
    place: Place,
) -> Result<(), CheckRefused> {
    match listed.find(name) {
        Some((index, None)) => {
            let entity = Entity::Local(count(index)?, INT, false);
            listed.set(name, INT);
            scope.declare_plain(Space::Ordinary, name, entity, place)
        }
        _ => Ok(()),
    }
}

/// The listed names that no declaration has.
fn declare_rest(
    scope: &mut Scope,
    listed: &mut Listed,
    names: &[ListedName],
    place: Place,
) -> Result<(), CheckRefused> {
    for name in names {
        declare_missing(scope, listed, &name.name, place)?;
    }
    Ok(())
}

/// What the default argument promotions make of a type (C90 6.3.2.2).
fn promoted(types: &TypeTable, kind: TypeId) -> TypeId {
    let kind = unqualified(types, kind);
    match types.node(kind) {
        TypeNode::Enum(_) => INT,
        TypeNode::Basic(basic) => promoted_basic(*basic, kind),
        _ => kind,
    }
}

/// The same of an arithmetic type.
fn promoted_basic(basic: Basic, kind: TypeId) -> TypeId {
    match basic {
        Basic::Char
        | Basic::SignedChar
        | Basic::UnsignedChar
        | Basic::Short
        | Basic::UnsignedShort => INT,
        Basic::Int | Basic::Unsigned | Basic::Long | Basic::UnsignedLong => kind,
    }
}

/// Makes the listed names parameters of the function. Gives their promoted types.
fn add_parameters(
    alloc: Global,
    scope: &mut Scope,
    listed: &Listed,
) -> Result<Vec<TypeId>, NoMemory> {
    let mut kinds = Vec::new(alloc);
    for (_, kind) in listed.names.iter() {
        let kind = kind.unwrap_or(INT);
        let _ = scope.add_local(kind)?;
        kinds.push(promoted(&scope.types, kind))?;
    }
    Ok(kinds)
}

/// The parameters of a list of names, from the declarations behind it. L08 at the list where there are too many.
fn parameters(
    alloc: Global,
    scope: &mut Scope,
    names: &[ListedName],
    place: Place,
    mut listed: Listed,
    declarations: &[Declaration],
) -> Result<Vec<TypeId>, CheckRefused> {
    declare_all(alloc, scope, &mut listed, declarations)?;
    declare_rest(scope, &mut listed, names, place)?;
    if names.len() > LARGEST {
        return Err(broken(CheckRule::L08, place));
    }
    Ok(add_parameters(alloc, scope, &listed)?)
}

/// Declares and defines a function with a list of names, opens its scope and declares its parameters there. At the list L08, K03 and
/// L12; K04 at the declarator where the promoted types of the parameters do not agree with an earlier declaration's; K03, K17 and
/// K18 at the declarations of parameters.
pub(crate) fn open_names(
    alloc: Global,
    scope: &mut Scope,
    linked: &LinkedName,
    function: &Function,
) -> Result<Opened, CheckRefused> {
    let Some((names, place)) = own_names(function.declarator.parts.as_slice()) else {
        return Err(broken(CheckRule::K17, function.place));
    };
    let listed = read_names(alloc, names)?;
    let symbol = scope.declare_linked(linked)?;
    let kind = scope.kind_of(linked.name).unwrap_or(linked.kind);
    scope.enter()?;
    let declarations = function.declarations.as_slice();
    let promoted = parameters(alloc, scope, names, place, listed, declarations)?;
    scope.meet_list(kind, symbol, promoted, linked.place)?;
    let symbol = scope.symbol_to_define(symbol, linked)?;
    scope.define_function(symbol, linked.place)?;
    Ok(Opened {
        symbol,
        parameters: count(names.len())?,
    })
}
