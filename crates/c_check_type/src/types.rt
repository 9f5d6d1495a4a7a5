//! The function values, and what is asked of them.

ghost use Rattle.c_check_type.specs.Nested.{IsNested, IsNestedList};

use crate::parameter::Parameters;
use c_const::is_integral_constant;
use c_conversion::{Typed, value};
use c_scope::Scope;
use c_specifiers::Specified;
use c_syntax::{Expr, Parameter, Specifier, TypeName};
use c_types::TypeId;
use check_refusal::CheckRefused;
use std::alloc::Global;

/// What reads the parts of a type: an expression, a list of specifiers, and a list of parameters with whether `...` ends it.
#[derive(Clone, Copy)]
pub struct Types<E, S, P> {
    pub alloc: Global,
    /// How many nodes may still lie one above the other.
    pub room: u32,
    pub expr: E,
    pub specifiers: S,
    pub parameters: P,
}

impl<
    E: Fn(Global, &mut Scope, u32, &Expr) -> Result<Typed, CheckRefused>,
    S: Fn(Global, &mut Scope, u32, &[Specifier]) -> Result<Specified, CheckRefused>,
    P: Fn(Global, &mut Scope, u32, &[Parameter], bool) -> Result<Parameters, CheckRefused>,
> Types<E, S, P> {
    /// The value of an integral constant expression; None of another expression.
    pub(crate) fn constant(&self, scope: &mut Scope, e: &Expr) -> Result<Option<i64>, CheckRefused>
        requires { IsNested self.now.room (E.pre self.now.expr) }
    {
        let raw = (self.expr)(self.alloc, scope, self.room, e)?;
        let e = value(self.alloc, &mut scope.types, raw)?;
        Ok(is_integral_constant(&scope.types, &e.tree))
    }

    /// What a list of specifiers says.
    pub(crate) fn listed(
        &self,
        scope: &mut Scope,
        list: &[Specifier],
    ) -> Result<Specified, CheckRefused>
        requires { IsNested self.now.room (S.pre self.now.specifiers) }
    {
        (self.specifiers)(self.alloc, scope, self.room, list)
    }

    /// What a list of parameters says.
    pub(crate) fn prototype(
        &self,
        scope: &mut Scope,
        list: &[Parameter],
        is_variadic: bool,
    ) -> Result<Parameters, CheckRefused>
        requires { IsNestedList self.now.room (P.pre self.now.parameters) }
    {
        (self.parameters)(self.alloc, scope, self.room, list, is_variadic)
    }

    /// The type that a type name names (C90 6.5.5).
    pub fn type_name(&self, scope: &mut Scope, name: &TypeName) -> Result<TypeId, CheckRefused>
        requires expr { IsNested self.now.room (E.pre self.now.expr) }
        requires specifiers { IsNested self.now.room (S.pre self.now.specifiers) }
        requires parameters { IsNestedList self.now.room (P.pre self.now.parameters) }
    {
        let specified = self.listed(scope, name.specifiers.as_slice())?;
        match &name.declarator {
            Some(declarator) => self.declarator(scope, declarator, specified.kind),
            None => Ok(specified.kind),
        }
    }
}
