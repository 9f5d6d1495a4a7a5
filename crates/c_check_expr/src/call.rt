//! Calls (C90 6.3.2.2).

ghost use Rattle.std.specs.Prelude.{◌≡◌};
ghost use Rattle.c_check_expr.specs.Nested.{IsNested};

use crate::part::Expressions;
use c_calls::{Callee, call_of, call_primitive, callee_of};
use c_conversion::Typed;
use c_scope::{Scope, Space, is_reserved};
use c_syntax::{Expr, ExprForm, TypeName};
use c_types::TypeId;
use check_refusal::CheckRefused;
use fsc_base::{Name, NoMemory, Place};
use std::alloc::Global;

/// A called name that is not declared is declared as `extern int name()` in the innermost scope. L12 where it is kept for primitives.
fn declare_called(scope: &mut Scope, name: &Name, place: Place) -> Result<(), CheckRefused> {
    match scope.find(Space::Ordinary, name) {
        Some(_) => Ok(()),
        None => scope.implicit(name, place),
    }
}

/// The number of a call that gives a struct or union; 0 of every other, which has none.
fn call_number(scope: &mut Scope, callee: Option<Callee>) -> Result<u32, NoMemory> {
    match callee {
        Some(callee) => {
            if callee.is_record {
                scope.number_call(callee.returns)
            } else {
                Ok(0)
            }
        }
        None => Ok(0),
    }
}

impl<
    E: Fn(Global, &mut Scope, u32, &Expr) -> Result<Typed, CheckRefused>,
    T: Fn(Global, &mut Scope, u32, &TypeName) -> Result<TypeId, CheckRefused>,
> Expressions<E, T> {
    /// A call of a primitive. L12.
    fn primitive_call(
        &self,
        scope: &mut Scope,
        name: &Name,
        arguments: &[Expr],
        place: Place,
    ) -> Result<Typed, CheckRefused>
        requires { IsNested self.now.room (E.pre self.now.expr) }
    {
        let given = self.used_parts(scope, arguments)?;
        call_primitive(self.alloc, &mut scope.types, name, given, place)
    }

    /// A call of a function. L08, K21, K46 and L11 at an argument.
    fn function_call(
        &self,
        scope: &mut Scope,
        function: &Expr,
        arguments: &[Expr],
        place: Place,
    ) -> Result<Typed, CheckRefused>
        requires { IsNested self.now.room (E.pre self.now.expr) }
    {
        let function = self.used_part(scope, function)?;
        let callee = callee_of(&scope.types, function.tree.kind);
        let number = call_number(scope, callee)?;
        let given = self.used_parts(scope, arguments)?;
        call_of(
            self.alloc,
            &scope.types,
            function,
            callee,
            number,
            given,
            place,
        )
    }

    /// A call of a name.
    fn name_call(
        &self,
        scope: &mut Scope,
        function: &Expr,
        name: &Name,
        arguments: &[Expr],
        place: Place,
    ) -> Result<Typed, CheckRefused>
        requires { IsNested self.now.room (E.pre self.now.expr) }
    {
        if is_reserved(name) {
            self.primitive_call(scope, name, arguments, place)
        } else {
            declare_called(scope, name, function.place)?;
            self.function_call(scope, function, arguments, place)
        }
    }

    /// `f(..)`.
    pub(crate) fn call(
        &self,
        scope: &mut Scope,
        function: &Expr,
        arguments: &[Expr],
        place: Place,
    ) -> Result<Typed, CheckRefused>
        requires { IsNested self.now.room (E.pre self.now.expr) }
    {
        match &function.form {
            ExprForm::Name(name) => self.name_call(scope, function, name, arguments, place),
            _ => self.function_call(scope, function, arguments, place),
        }
    }
}
