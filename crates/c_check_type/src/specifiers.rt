//! Lists of specifiers (C90 6.5, 6.5.1 to 6.5.3, 6.5.6).

ghost use Rattle.c_check_type.specs.Nested.{IsNested, IsNestedList};

use crate::parameter::Parameters;
use crate::types::Types;
use c_conversion::Typed;
use c_scope::{Entity, Scope, Space};
use c_specifiers::{Reading, Specified, enum_tag, record_tag};
use c_syntax::{Enumerator, Expr, Field, Parameter, RecordKind, Specifier, SpecifierForm};
use c_types::{TypeId, TypeNode, TypeTable};
use check_refusal::{CheckRefused, CheckRule, broken};
use fsc_base::{Name, NoMemory, Place};
use std::alloc::Global;
use type_relations::{element, qualified, qualifiers};

/// A qualified type; of a function type the type itself, which loses qualifiers.
pub(crate) fn qualified_object(
    alloc: Global,
    types: &mut TypeTable,
    kind: TypeId,
    bits: u32,
) -> Result<TypeId, NoMemory> {
    if matches!(types.node(kind), TypeNode::Function { .. }) {
        return Ok(kind);
    }
    qualified(alloc, types, kind, bits)
}

/// The type of a typedef name. K19 at the place where it is none.
fn alias(scope: &Scope, name: &Name, place: Place) -> Result<TypeId, CheckRefused> {
    match scope.find(Space::Ordinary, name) {
        Some(Entity::Typedef(kind)) => Ok(kind),
        _ => Err(broken(CheckRule::K19, place)),
    }
}

/// A list with a typedef name.
fn with_alias(
    scope: &Scope,
    reading: Reading,
    name: &Name,
    place: Place,
) -> Result<Reading, CheckRefused> {
    reading.wants_type()?;
    let kind = alias(scope, name, place)?;
    let own = qualifiers(&scope.types, element(&scope.types, kind));
    reading.with_alias(kind, own, place)
}

/// What a list says that was read. A function type stays unqualified.
fn specified(
    alloc: Global,
    scope: &mut Scope,
    reading: &Reading,
) -> Result<Specified, CheckRefused> {
    let kind = reading.unqualified()?;
    Ok(Specified {
        storage: reading.storage,
        storage_place: reading.storage_place,
        kind: qualified_object(alloc, &mut scope.types, kind, reading.qualifiers)?,
        declares: reading.declares,
    })
}

/// Which list a specifier stands in.
#[derive(Clone, Copy, Debug, PartialEq, Eq)]
struct Around {
    /// It has one specifier.
    is_sole: bool,
    /// It is that of a declaration without declarators.
    is_alone: bool,
}

/// A list with `struct tag` or `union tag`. It declares the tag where that is new, and where it stands by itself.
fn with_record_tag(
    alloc: Global,
    scope: &mut Scope,
    reading: Reading,
    around: Around,
    record: (RecordKind, &Name),
    place: Place,
) -> Result<Reading, CheckRefused> {
    reading.wants_type()?;
    let is_sole = around.is_sole && around.is_alone;
    let (kind, is_new) = record_tag(alloc, scope, record.0, record.1, is_sole, place)?;
    Ok(reading.with_tag(kind, is_new || around.is_sole))
}

/// A list with `enum tag`.
fn with_enum_tag(
    scope: &Scope,
    reading: Reading,
    tag: &Name,
    place: Place,
) -> Result<Reading, CheckRefused> {
    reading.wants_type()?;
    Ok(reading.with_tag(enum_tag(scope, tag, place)?, false))
}

/// Where a list begins.
fn start(list: &[Specifier], place: Place) -> Place {
    match list.first() {
        Some(specifier) => specifier.place,
        None => place,
    }
}

impl<
    E: Fn(Global, &mut Scope, u32, &Expr) -> Result<Typed, CheckRefused>,
    S: Fn(Global, &mut Scope, u32, &[Specifier]) -> Result<Specified, CheckRefused>,
    P: Fn(Global, &mut Scope, u32, &[Parameter], bool) -> Result<Parameters, CheckRefused>,
> Types<E, S, P> {
    /// A list with the body of a struct or union. It declares a tag where it has one.
    fn with_record_body(
        &self,
        scope: &mut Scope,
        reading: Reading,
        record: (RecordKind, &Option<Name>, &[Field]),
        place: Place,
    ) -> Result<Reading, CheckRefused>
        requires expr { IsNested self.now.room (E.pre self.now.expr) }
        requires specifiers { IsNested self.now.room (S.pre self.now.specifiers) }
        requires parameters { IsNestedList self.now.room (P.pre self.now.parameters) }
    {
        reading.wants_type()?;
        let (kind, tag, fields) = record;
        let id = self.record(scope, kind, tag, fields, place)?;
        Ok(reading.with_tag(id, tag.is_some()))
    }

    /// A list with the body of an enum.
    fn with_enum_body(
        &self,
        scope: &mut Scope,
        reading: Reading,
        tag: &Option<Name>,
        enumerators: &[Enumerator],
        place: Place,
    ) -> Result<Reading, CheckRefused>
        requires { IsNested self.now.room (E.pre self.now.expr) }
    {
        reading.wants_type()?;
        let id = self.enumeration(scope, tag, enumerators, place)?;
        Ok(reading.with_tag(id, true))
    }

    /// A list with one more specifier.
    fn with_specifier(
        &self,
        scope: &mut Scope,
        reading: Reading,
        around: Around,
        specifier: &Specifier,
    ) -> Result<Reading, CheckRefused>
        requires expr { IsNested self.now.room (E.pre self.now.expr) }
        requires specifiers { IsNested self.now.room (S.pre self.now.specifiers) }
        requires parameters { IsNestedList self.now.room (P.pre self.now.parameters) }
    {
        let place = specifier.place;
        match &specifier.form {
            SpecifierForm::Storage(storage) => reading.with_storage(*storage, place),
            SpecifierForm::Keyword(keyword) => reading.with_keyword(*keyword, place),
            SpecifierForm::Qualifier(qualifier) => reading.with_qualifier(*qualifier, place),
            SpecifierForm::Alias(name) => with_alias(scope, reading, name, place),
            SpecifierForm::RecordTag(kind, tag) => {
                with_record_tag(self.alloc, scope, reading, around, (*kind, tag), place)
            }
            SpecifierForm::RecordBody(kind, tag, fields) => {
                self.with_record_body(scope, reading, (*kind, tag, fields.as_slice()), place)
            }
            SpecifierForm::EnumTag(tag) => with_enum_tag(scope, reading, tag, place),
            SpecifierForm::EnumBody(tag, enumerators) => {
                self.with_enum_body(scope, reading, tag, enumerators.as_slice(), place)
            }
        }
    }

    /// A list of specifiers, in order of text.
    fn read(
        &self,
        scope: &mut Scope,
        around: Around,
        list: &[Specifier],
        place: Place,
    ) -> Result<Reading, CheckRefused>
        requires expr { IsNested self.now.room (E.pre self.now.expr) }
        requires specifiers { IsNested self.now.room (S.pre self.now.specifiers) }
        requires parameters { IsNestedList self.now.room (P.pre self.now.parameters) }
    {
        let mut reading = Reading::new(place);
        for specifier in list {
            reading = self.with_specifier(scope, reading, around, specifier)?;
        }
        Ok(reading)
    }

    /// What a list of specifiers says; `is_alone` is that of a declaration without declarators, and `place` is where an empty list
    /// stands. K05, K13 and L01 at the specifier, K06 at the list's first token (C90 6.5).
    pub fn list(
        &self,
        scope: &mut Scope,
        list: &[Specifier],
        is_alone: bool,
        place: Place,
    ) -> Result<Specified, CheckRefused>
        requires expr { IsNested self.now.room (E.pre self.now.expr) }
        requires specifiers { IsNested self.now.room (S.pre self.now.specifiers) }
        requires parameters { IsNestedList self.now.room (P.pre self.now.parameters) }
    {
        let around = Around {
            is_sole: list.len() == 1,
            is_alone,
        };
        let reading = self.read(scope, around, list, start(list, place))?;
        specified(self.alloc, scope, &reading)
    }
}
