//! Bodies of enums (C90 6.5.2.2).

ghost use Rattle.c_check_type.specs.Nested.{IsNested};

use crate::parameter::Parameters;
use crate::types::Types;
use c_conversion::Typed;
use c_scope::{Entity, Scope, Space};
use c_specifiers::{Specified, enum_body};
use c_syntax::{Enumerator, Expr, Parameter, Specifier};
use c_types::TypeId;
use check_refusal::{CheckRefused, CheckRule, broken};
use fsc_base::{Name, Place};
use std::alloc::Global;

/// The word of an int's value; None of a value that is no int's.
fn int_word(value: i64) -> Option<u32> {
    match i32::try_from(value) {
        Ok(value) => Some(u32::from_le_bytes(value.to_le_bytes())),
        Err(_) => None,
    }
}

impl<
    E: Fn(Global, &mut Scope, u32, &Expr) -> Result<Typed, CheckRefused>,
    S: Fn(Global, &mut Scope, u32, &[Specifier]) -> Result<Specified, CheckRefused>,
    P: Fn(Global, &mut Scope, u32, &[Parameter], bool) -> Result<Parameters, CheckRefused>,
> Types<E, S, P> {
    /// The value of an enumerator, given or one above that of the one before. None where it is no integral constant expression.
    fn enumerator_value(
        &self,
        scope: &mut Scope,
        enumerator: &Enumerator,
        next: i64,
    ) -> Result<Option<i64>, CheckRefused>
        requires { IsNested self.now.room (E.pre self.now.expr) }
    {
        match &enumerator.value {
            Some(e) => self.constant(scope, e.get()),
            None => Ok(Some(next)),
        }
    }

    /// Declares an enumerator behind its value. Gives the value of the one behind it. K09 at it where its value is no int.
    fn enumerator(
        &self,
        scope: &mut Scope,
        enumerator: &Enumerator,
        next: i64,
    ) -> Result<i64, CheckRefused>
        requires { IsNested self.now.room (E.pre self.now.expr) }
    {
        let place = enumerator.place;
        let Some(value) = self.enumerator_value(scope, enumerator, next)? else {
            return Err(broken(CheckRule::K09, place));
        };
        let Some(word) = int_word(value) else {
            return Err(broken(CheckRule::K09, place));
        };
        scope.declare_plain(
            Space::Ordinary,
            &enumerator.name,
            Entity::Constant(word),
            place,
        )?;
        Ok(value.saturating_add(1))
    }

    /// The enumerators of a body.
    fn enumerators(&self, scope: &mut Scope, enumerators: &[Enumerator]) -> Result<(), CheckRefused>
        requires { IsNested self.now.room (E.pre self.now.expr) }
    {
        let mut next = 0;
        for enumerator in enumerators {
            next = self.enumerator(scope, enumerator, next)?;
        }
        Ok(())
    }

    /// The type of a body of an enum. At the place K03 where the innermost scope has the tag; at an enumerator K09 where it is no
    /// integral constant of int, K03 where the scope has its name, L12 where that is kept for primitives.
    pub(crate) fn enumeration(
        &self,
        scope: &mut Scope,
        tag: &Option<Name>,
        enumerators: &[Enumerator],
        place: Place,
    ) -> Result<TypeId, CheckRefused>
        requires { IsNested self.now.room (E.pre self.now.expr) }
    {
        let id = enum_body(self.alloc, scope, tag, place)?;
        scope.open_tag(id)?;
        self.enumerators(scope, enumerators)?;
        scope.close_tag();
        Ok(id)
    }
}
