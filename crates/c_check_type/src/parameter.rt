//! Lists of parameters (C90 6.5.4.3).

ghost use Rattle.c_check_type.specs.Nested.{IsNested, IsNestedList};

use crate::declarator::adjusted;
use crate::types::Types;
use c_conversion::Typed;
use c_scope::{Entity, Level, Scope, Space};
use c_specifiers::Specified;
use c_syntax::{Declarator, Expr, Parameter, Specifier, Storage};
use c_types::{TypeId, TypeIds, VOID};
use check_refusal::{CheckRefused, CheckRule, broken};
use fsc_base::{Name, NoMemory, Place};
use sqlite_items::Items;
use std::alloc::Global;
use type_relations::unqualified;

/// The most parameters of a function.
const LARGEST: usize = 63;

/// A parameter.
#[derive(Clone, Copy, Debug, PartialEq, Eq)]
pub struct ParameterOf {
    /// Its adjusted type.
    pub kind: TypeId,
    /// The type without its own qualifiers.
    pub unqualified: TypeId,
    pub is_named: bool,
    pub place: Place,
}

/// A list of parameters, and the scope that it declared: its parameters under their indices, and tags and enumerators.
#[derive(Drop)]
pub struct Parameters {
    alloc: Global,
    list: Items<ParameterOf>,
    level: Level<Entity>,
}

impl Parameters {
    /// The parameters, and the scope that the list declared.
    pub fn into_parts(self) -> (Items<ParameterOf>, Level<Entity>) {
        let Parameters {
            alloc: _,
            list,
            level,
        } = self;
        (list, level)
    }

    /// Their types without their own qualifiers, as a function's type has them.
    pub(crate) fn kinds(&self) -> Result<TypeIds, NoMemory> {
        let mut kinds = TypeIds::new(self.alloc);
        for parameter in self.list.as_slice() {
            kinds.push(parameter.unqualified)?;
        }
        Ok(kinds)
    }
}

/// The name of a parameter and the place of its declarator.
fn name_of(parameter: &Parameter) -> Option<(&Name, Place)> {
    match &parameter.declarator {
        Some(declarator) => match declarator.name() {
            Some(name) => Some((name, declarator.place)),
            None => None,
        },
        None => None,
    }
}

/// K12 at a storage class that is not register.
fn can_store(specified: &Specified) -> Result<(), CheckRefused> {
    match specified.storage {
        None | Some(Storage::Register) => Ok(()),
        Some(Storage::Typedef)
        | Some(Storage::Extern)
        | Some(Storage::Static)
        | Some(Storage::Auto) => Err(broken(CheckRule::K12, specified.storage_place)),
    }
}

/// Declares a parameter that has a name.
fn declare(
    scope: &mut Scope,
    parameter: &Parameter,
    index: usize,
    kind: TypeId,
    is_register: bool,
) -> Result<(), CheckRefused> {
    let Some((name, place)) = name_of(parameter) else {
        return Ok(());
    };
    let Ok(index) = u32::try_from(index) else {
        return Err(CheckRefused::NoMemory);
    };
    scope.declare_plain(
        Space::Ordinary,
        name,
        Entity::Local(index, kind, is_register),
        place,
    )
}

/// Adds a parameter of a type. K12 at it where that is void.
fn add(
    scope: &mut Scope,
    list: &mut Items<ParameterOf>,
    parameter: &Parameter,
    specified: &Specified,
    kind: TypeId,
) -> Result<(), CheckRefused> {
    if unqualified(&scope.types, kind) == VOID {
        return Err(broken(CheckRule::K12, parameter.place));
    }
    let kind = adjusted(&mut scope.types, kind)?;
    let index = list.len();
    list.push(ParameterOf {
        kind,
        unqualified: unqualified(&scope.types, kind),
        is_named: name_of(parameter).is_some(),
        place: parameter.place,
    })?;
    declare(scope, parameter, index, kind, specified.storage.is_some())
}

/// Whether a list is one void without a name, which says that there are no parameters.
fn is_void(list: &[Parameter], is_variadic: bool, specified: &Specified, kind: TypeId) -> bool {
    match list {
        [only] => {
            kind == VOID && !is_variadic && specified.storage.is_none() && name_of(only).is_none()
        }
        _ => false,
    }
}

/// L08 at the first where there are too many.
fn are_few(list: &[Parameter], count: usize) -> Result<(), CheckRefused> {
    match list.first() {
        Some(first) if count > LARGEST => Err(broken(CheckRule::L08, first.place)),
        _ => Ok(()),
    }
}

impl<
    E: Fn(Global, &mut Scope, u32, &Expr) -> Result<Typed, CheckRefused>,
    S: Fn(Global, &mut Scope, u32, &[Specifier]) -> Result<Specified, CheckRefused>,
    P: Fn(Global, &mut Scope, u32, &[Parameter], bool) -> Result<Parameters, CheckRefused>,
> Types<E, S, P> {
    /// The type of a parameter, before it is adjusted.
    fn parameter_kind(
        &self,
        scope: &mut Scope,
        declarator: &Option<Declarator>,
        kind: TypeId,
    ) -> Result<TypeId, CheckRefused>
        requires expr { IsNested self.now.room (E.pre self.now.expr) }
        requires parameters { IsNestedList self.now.room (P.pre self.now.parameters) }
    {
        match declarator {
            Some(declarator) => self.declarator(scope, declarator, kind),
            None => Ok(kind),
        }
    }

    /// Reads a parameter of a list, and adds it where the list is not one void.
    fn parameter(
        &self,
        scope: &mut Scope,
        list: &mut Items<ParameterOf>,
        all: (&[Parameter], bool),
        parameter: &Parameter,
    ) -> Result<(), CheckRefused>
        requires expr { IsNested self.now.room (E.pre self.now.expr) }
        requires specifiers { IsNested self.now.room (S.pre self.now.specifiers) }
        requires parameters { IsNestedList self.now.room (P.pre self.now.parameters) }
    {
        let specified = self.listed(scope, parameter.specifiers.as_slice())?;
        can_store(&specified)?;
        let kind = self.parameter_kind(scope, &parameter.declarator, specified.kind)?;
        if is_void(all.0, all.1, &specified, kind) {
            return Ok(());
        }
        add(scope, list, parameter, &specified, kind)
    }

    /// Reads the parameters of a list in the innermost scope.
    fn read_list(
        &self,
        scope: &mut Scope,
        all: &[Parameter],
        is_variadic: bool,
    ) -> Result<Items<ParameterOf>, CheckRefused>
        requires expr { IsNested self.now.room (E.pre self.now.expr) }
        requires specifiers { IsNested self.now.room (S.pre self.now.specifiers) }
        requires parameters { IsNestedList self.now.room (P.pre self.now.parameters) }
    {
        let mut list = Items::new(self.alloc);
        for parameter in all {
            self.parameter(scope, &mut list, (all, is_variadic), parameter)?;
        }
        Ok(list)
    }

    /// What a list of parameters says. K12 at a storage class that is not register and at a parameter that is void, but for one void
    /// alone, with no qualifier and no register, which says that there are none; L08 at the first where there are more than 63.
    pub fn parameter_list(
        &self,
        scope: &mut Scope,
        all: &[Parameter],
        is_variadic: bool,
    ) -> Result<Parameters, CheckRefused>
        requires expr { IsNested self.now.room (E.pre self.now.expr) }
        requires specifiers { IsNested self.now.room (S.pre self.now.specifiers) }
        requires parameters { IsNestedList self.now.room (P.pre self.now.parameters) }
    {
        scope.enter()?;
        let list = self.read_list(scope, all, is_variadic)?;
        are_few(all, list.len())?;
        Ok(Parameters {
            alloc: self.alloc,
            list,
            level: scope.leave_with()?,
        })
    }
}
