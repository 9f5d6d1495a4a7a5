//! Bodies of structs and unions (C90 6.5.2.1).

ghost use Rattle.c_check_type.specs.Nested.{IsNested, IsNestedList};

use crate::parameter::Parameters;
use crate::types::Types;
use c_conversion::Typed;
use c_scope::{Scope, is_reserved};
use c_specifiers::{Specified, record_body};
use c_syntax::{
    Declarator, Expr, Field as FieldDeclaration, FieldDeclarator, Parameter, RecordKind, Specifier,
};
use c_types::{Field, Fields, INT, LayoutNo, TypeId, TypeTable, UNSIGNED, next_first};
use check_refusal::{CheckRefused, CheckRule, broken};
use fsc_base::{Name, NoMemory, Place};
use indexmap::IndexSet;
use sqlite_items::Boxed;
use std::alloc::Global;
use std::default::MadeWith;
use type_relations::unqualified;

/// The members of a body so far.
#[derive(Drop)]
pub(crate) struct Members {
    alloc: Global,
    is_union: bool,
    fields: Vec<Field>,
    names: IndexSet<Vec<u8>>,
    /// Whether a bit-field of width 0 stands before.
    is_after_zero: bool,
}

impl Members {
    fn new(alloc: Global, is_union: bool) -> Members {
        Members {
            alloc,
            is_union,
            fields: Vec::new(alloc),
            names: IndexSet::new(alloc),
            is_after_zero: false,
        }
    }

    /// Notes a name. K03 at the place where a member before has it.
    fn add_name(&mut self, name: &Name, place: Place) -> Result<(), CheckRefused> {
        if self.names.contains(name.as_slice()) {
            return Err(broken(CheckRule::K03, place));
        }
        self.names
            .insert(Vec::from_slice(self.alloc, name.as_slice())?)?;
        Ok(())
    }

    fn push(&mut self, name: Name, kind: TypeId, first: u32, count: u32) -> Result<(), NoMemory> {
        self.is_after_zero = false;
        self.fields.push(Field {
            name,
            kind,
            first,
            count,
        })?;
        Ok(())
    }

    /// A member that is no bit-field. K07 at the place where it is of no complete object type, K03 where one before has its name.
    fn add(
        &mut self,
        types: &TypeTable,
        name: &Name,
        kind: TypeId,
        place: Place,
    ) -> Result<(), CheckRefused> {
        if types.size(kind).is_none() {
            return Err(broken(CheckRule::K07, place));
        }
        self.add_name(name, place)?;
        let name = Name::from_slice(self.alloc, name.as_slice())?;
        self.push(name, kind, 0, 0)?;
        Ok(())
    }

    /// A bit-field with one bit or more.
    fn push_bits(&mut self, name: Name, kind: TypeId, count: u32) -> Result<(), NoMemory> {
        let first = next_first(
            self.fields.as_slice(),
            self.is_union,
            count,
            self.is_after_zero,
        );
        self.push(name, kind, first, count)
    }

    /// A bit-field with a name. K03 at the place where one before has it.
    fn add_bits(
        &mut self,
        name: &Name,
        kind: TypeId,
        count: u32,
        place: Place,
    ) -> Result<(), CheckRefused> {
        self.add_name(name, place)?;
        let name = Name::from_slice(self.alloc, name.as_slice())?;
        self.push_bits(name, kind, count)?;
        Ok(())
    }

    /// A bit-field without a name; one of width 0 ends the unit before it and is no member.
    fn add_padding(&mut self, kind: TypeId, count: u32) -> Result<(), NoMemory> {
        if count == 0 {
            self.is_after_zero = true;
            return Ok(());
        }
        self.push_bits(Name::made_with(self.alloc), kind, count)
    }
}

/// The width of a bit-field of a type. K08 at the place where the type is neither int nor unsigned, perhaps qualified, or the width
/// is no integral constant from 0 to 32.
fn width(
    types: &TypeTable,
    kind: TypeId,
    width: Option<i64>,
    place: Place,
) -> Result<u32, CheckRefused> {
    let kind = unqualified(types, kind);
    if kind != INT && kind != UNSIGNED {
        return Err(broken(CheckRule::K08, place));
    }
    match width {
        Some(width) if 0 <= width && width <= 32 => Ok(width as u32),
        _ => Err(broken(CheckRule::K08, place)),
    }
}

/// Whether a member's type has a const in it.
fn any_const(scope: &Scope, fields: &[Field]) -> bool {
    for field in fields {
        if scope.has_const(field.kind) {
            return true;
        }
    }
    false
}

/// Completes a struct or union at the end of its body. At the place L07 where no member has a name, L05 where it is larger than
/// 2^27 bytes.
fn complete(
    scope: &mut Scope,
    id: TypeId,
    members: Members,
    place: Place,
) -> Result<(), CheckRefused> {
    if members.names.is_empty() {
        return Err(broken(CheckRule::L07, place));
    }
    let is_const = any_const(scope, members.fields.as_slice());
    match scope.types.complete(id, Fields::from_vec(members.fields)) {
        Ok(()) => {}
        Err(LayoutNo::NoMemory) => return Err(CheckRefused::NoMemory),
        Err(LayoutNo::Large) => return Err(broken(CheckRule::L05, place)),
        Err(LayoutNo::Part) => return Err(broken(CheckRule::K07, place)),
        Err(LayoutNo::NotIncomplete) => return Err(broken(CheckRule::K03, place)),
    }
    if is_const {
        let _ = scope.with_const.insert(id)?;
    }
    Ok(())
}

/// L12 at the place where a member's name is kept for primitives.
fn is_free(name: Option<&Name>, place: Place) -> Result<(), CheckRefused> {
    match name {
        Some(name) => {
            if is_reserved(name) {
                Err(broken(CheckRule::L12, place))
            } else {
                Ok(())
            }
        }
        None => Ok(()),
    }
}

/// The name that a member's declarator declares.
fn name_of(member: &FieldDeclarator) -> Option<&Name> {
    match &member.declarator {
        Some(declarator) => declarator.name(),
        None => None,
    }
}

/// Adds a member that is no bit-field. One without a name is no member; the grammar has none.
fn add_plain(
    types: &TypeTable,
    members: &mut Members,
    name: Option<&Name>,
    kind: TypeId,
    place: Place,
) -> Result<(), CheckRefused> {
    match name {
        Some(name) => members.add(types, name, kind, place),
        None => Err(broken(CheckRule::K07, place)),
    }
}

/// Adds a bit-field of that width. K08 at the place where it has a name and width 0.
fn add_width(
    members: &mut Members,
    name: Option<&Name>,
    kind: TypeId,
    count: u32,
    place: Place,
) -> Result<(), CheckRefused> {
    match name {
        Some(name) => {
            if count == 0 {
                return Err(broken(CheckRule::K08, place));
            }
            members.add_bits(name, kind, count, place)
        }
        None => Ok(members.add_padding(kind, count)?),
    }
}

impl<
    E: Fn(Global, &mut Scope, u32, &Expr) -> Result<Typed, CheckRefused>,
    S: Fn(Global, &mut Scope, u32, &[Specifier]) -> Result<Specified, CheckRefused>,
    P: Fn(Global, &mut Scope, u32, &[Parameter], bool) -> Result<Parameters, CheckRefused>,
> Types<E, S, P> {
    /// The type of a member.
    fn member_kind(
        &self,
        scope: &mut Scope,
        declarator: &Option<Declarator>,
        kind: TypeId,
    ) -> Result<TypeId, CheckRefused>
        requires expr { IsNested self.now.room (E.pre self.now.expr) }
        requires parameters { IsNestedList self.now.room (P.pre self.now.parameters) }
    {
        match declarator {
            Some(declarator) => self.declarator(scope, declarator, kind),
            None => Ok(kind),
        }
    }

    /// Adds a bit-field.
    fn bit_field(
        &self,
        scope: &mut Scope,
        members: &mut Members,
        member: &FieldDeclarator,
        kind: TypeId,
        count: &Boxed<Expr>,
    ) -> Result<(), CheckRefused>
        requires { IsNested self.now.room (E.pre self.now.expr) }
    {
        let value = self.constant(scope, count.get())?;
        let count = width(&scope.types, kind, value, member.place)?;
        add_width(members, name_of(member), kind, count, member.place)
    }

    /// Adds a member.
    fn member(
        &self,
        scope: &mut Scope,
        members: &mut Members,
        member: &FieldDeclarator,
        kind: TypeId,
    ) -> Result<(), CheckRefused>
        requires expr { IsNested self.now.room (E.pre self.now.expr) }
        requires parameters { IsNestedList self.now.room (P.pre self.now.parameters) }
    {
        let kind = self.member_kind(scope, &member.declarator, kind)?;
        let name = name_of(member);
        is_free(name, member.place)?;
        match &member.width {
            Some(count) => self.bit_field(scope, members, member, kind, count),
            None => add_plain(&scope.types, members, name, kind, member.place),
        }
    }

    /// Adds the members of a declaration of members.
    fn field(
        &self,
        scope: &mut Scope,
        members: &mut Members,
        field: &FieldDeclaration,
    ) -> Result<(), CheckRefused>
        requires expr { IsNested self.now.room (E.pre self.now.expr) }
        requires specifiers { IsNested self.now.room (S.pre self.now.specifiers) }
        requires parameters { IsNestedList self.now.room (P.pre self.now.parameters) }
    {
        let specified = self.listed(scope, field.specifiers.as_slice())?;
        for member in field.declarators.as_slice() {
            self.member(scope, members, member, specified.kind)?;
        }
        Ok(())
    }

    /// The members of a body.
    fn members(
        &self,
        scope: &mut Scope,
        is_union: bool,
        fields: &[FieldDeclaration],
    ) -> Result<Members, CheckRefused>
        requires expr { IsNested self.now.room (E.pre self.now.expr) }
        requires specifiers { IsNested self.now.room (S.pre self.now.specifiers) }
        requires parameters { IsNestedList self.now.room (P.pre self.now.parameters) }
    {
        let mut members = Members::new(self.alloc, is_union);
        for field in fields {
            self.field(scope, &mut members, field)?;
        }
        Ok(members)
    }

    /// The type of a body of a struct or union. At the place K03 where the innermost scope has the tag complete, with its body open
    /// or of another kind, L07 where no member has a name, L05 where it is too large; at a member K03, K07, K08, L12.
    pub(crate) fn record(
        &self,
        scope: &mut Scope,
        kind: RecordKind,
        tag: &Option<Name>,
        fields: &[FieldDeclaration],
        place: Place,
    ) -> Result<TypeId, CheckRefused>
        requires expr { IsNested self.now.room (E.pre self.now.expr) }
        requires specifiers { IsNested self.now.room (S.pre self.now.specifiers) }
        requires parameters { IsNestedList self.now.room (P.pre self.now.parameters) }
    {
        let id = record_body(self.alloc, scope, kind, tag, place)?;
        scope.open_tag(id)?;
        let members = self.members(scope, kind == RecordKind::Union, fields)?;
        scope.close_tag();
        complete(scope, id, members, place)?;
        Ok(id)
    }
}
