//! What stands one level deeper.

ghost use Rattle.std.specs.Prelude.{◌≡◌};
ghost use Rattle.c_check_expr.specs.Nested.{IsNested};

use c_conversion::{Parts, Typed, unqualified, used, value};
use c_scope::Scope;
use c_syntax::{Expr, TypeName};
use c_types::TypeId;
use check_refusal::CheckRefused;
use std::alloc::Global;

/// How expressions of one level are read: `expr` reads those one level deeper before they are used for their values, `type_name` the
/// types that type names name; both are told for how many levels there is room.
#[derive(Clone, Copy)]
pub struct Expressions<E, T> {
    pub alloc: Global,
    pub room: u32,
    pub expr: E,
    pub type_name: T,
}

/// Whether the type is a struct or union with a const member at any depth. It takes no memory.
pub(crate) fn has_const(scope: &Scope, kind: TypeId) -> bool {
    scope.with_const.contains(&unqualified(&scope.types, kind))
}

impl<
    E: Fn(Global, &mut Scope, u32, &Expr) -> Result<Typed, CheckRefused>,
    T: Fn(Global, &mut Scope, u32, &TypeName) -> Result<TypeId, CheckRefused>,
> Expressions<E, T> {
    /// A part as it stands.
    pub(crate) fn part(&self, scope: &mut Scope, e: &Expr) -> Result<Typed, CheckRefused>
        requires { IsNested self.now.room (E.pre self.now.expr) }
    {
        (self.expr)(self.alloc, scope, self.room, e)
    }

    /// The type that a type name names.
    pub(crate) fn named_type(
        &self,
        scope: &mut Scope,
        name: &TypeName,
    ) -> Result<TypeId, CheckRefused>
        requires { IsNested self.now.room (T.pre self.now.type_name) }
    {
        (self.type_name)(self.alloc, scope, self.room, name)
    }

    /// The value of a part; it may be void.
    pub(crate) fn value_part(&self, scope: &mut Scope, e: &Expr) -> Result<Typed, CheckRefused>
        requires { IsNested self.now.room (E.pre self.now.expr) }
    {
        let e = self.part(scope, e)?;
        Ok(value(self.alloc, &mut scope.types, e)?)
    }

    /// The value of a part, which has one. K53 at it where it is void.
    pub(crate) fn used_part(&self, scope: &mut Scope, e: &Expr) -> Result<Typed, CheckRefused>
        requires { IsNested self.now.room (E.pre self.now.expr) }
    {
        let e = self.part(scope, e)?;
        used(self.alloc, &mut scope.types, e)
    }

    /// One more argument's value.
    fn push_used(
        &self,
        scope: &mut Scope,
        before: &mut Vec<Typed>,
        e: &Expr,
    ) -> Result<(), CheckRefused>
        requires { IsNested self.now.room (E.pre self.now.expr) }
    {
        before.push(self.used_part(scope, e)?)?;
        Ok(())
    }

    /// The values of arguments, from left to right.
    pub(crate) fn used_parts(
        &self,
        scope: &mut Scope,
        parts: &[Expr],
    ) -> Result<Vec<Typed>, CheckRefused>
        requires { IsNested self.now.room (E.pre self.now.expr) }
    {
        let mut values = Vec::new(self.alloc);
        'parts: for e in parts {
            self.push_used(scope, &mut values, e)?;
        }
        Ok(values)
    }

    /// One more operand of a comma expression.
    fn push_value(
        &self,
        scope: &mut Scope,
        before: &mut Parts,
        e: &Expr,
    ) -> Result<(), CheckRefused>
        requires { IsNested self.now.room (E.pre self.now.expr) }
    {
        before.push(self.value_part(scope, e)?)?;
        Ok(())
    }

    /// The operands of a comma expression, from left to right.
    pub(crate) fn value_parts(
        &self,
        scope: &mut Scope,
        parts: &[Expr],
    ) -> Result<Parts, CheckRefused>
        requires { IsNested self.now.room (E.pre self.now.expr) }
    {
        let mut values = Parts::new(self.alloc);
        'parts: for e in parts {
            self.push_value(scope, &mut values, e)?;
        }
        Ok(values)
    }
}
