//! Forms with operators (C90 6.3.2 to 6.3.17).

ghost use Rattle.std.specs.Prelude.{◌≡◌};
ghost use Rattle.c_check_expr.specs.Nested.{IsNested};

use crate::part::{Expressions, has_const};
use c_conversion::{Typed, comma, unqualified};
use c_ops::UnaryOperator;
use c_rules::{
    address, assignment, cast_to, compound_assignment, conditional, increment, indirection,
    integer_unary, member, negation, operation, pointer_member, size_of_expression, size_of_type,
    subscript,
};
use c_scope::Scope;
use c_syntax::{Binary, Expr, Step, TypeName, Unary};
use c_tree::Form;
use c_types::TypeId;
use check_refusal::CheckRefused;
use fsc_base::{Name, Place};
use std::alloc::Global;

/// A local name whose address is taken is noted.
fn note_address(scope: &mut Scope, e: &Typed) {
    if let Form::Local(index) = &e.tree.form {
        scope.mark_addressed(*index);
    }
}

impl<
    E: Fn(Global, &mut Scope, u32, &Expr) -> Result<Typed, CheckRefused>,
    T: Fn(Global, &mut Scope, u32, &TypeName) -> Result<TypeId, CheckRefused>,
> Expressions<E, T> {
    /// `a[b]`. K20.
    pub(crate) fn subscript(
        &self,
        scope: &mut Scope,
        left: &Expr,
        right: &Expr,
        place: Place,
    ) -> Result<Typed, CheckRefused>
        requires { IsNested self.now.room (E.pre self.now.expr) }
    {
        let left = self.used_part(scope, left)?;
        let right = self.used_part(scope, right)?;
        subscript(self.alloc, &scope.types, left, right, place)
    }

    /// `e.m`. K22.
    pub(crate) fn member(
        &self,
        scope: &mut Scope,
        record: &Expr,
        name: &Name,
        place: Place,
    ) -> Result<Typed, CheckRefused>
        requires { IsNested self.now.room (E.pre self.now.expr) }
    {
        let record = self.part(scope, record)?;
        member(self.alloc, &mut scope.types, record, name, place)
    }

    /// `e->m`. K22.
    pub(crate) fn pointer_member(
        &self,
        scope: &mut Scope,
        pointer: &Expr,
        name: &Name,
        place: Place,
    ) -> Result<Typed, CheckRefused>
        requires { IsNested self.now.room (E.pre self.now.expr) }
    {
        let pointer = self.used_part(scope, pointer)?;
        pointer_member(self.alloc, &mut scope.types, pointer, name, place)
    }

    /// `++` and `--`. K23.
    pub(crate) fn increment(
        &self,
        scope: &mut Scope,
        by: Step,
        is_prefix: bool,
        target: &Expr,
        place: Place,
    ) -> Result<Typed, CheckRefused>
        requires { IsNested self.now.room (E.pre self.now.expr) }
    {
        let target = self.part(scope, target)?;
        let has_const = has_const(scope, target.tree.kind);
        increment(
            self.alloc,
            &scope.types,
            has_const,
            by,
            is_prefix,
            target,
            place,
        )
    }

    /// `&e`. K24.
    fn address(
        &self,
        scope: &mut Scope,
        operand: &Expr,
        place: Place,
    ) -> Result<Typed, CheckRefused>
        requires { IsNested self.now.room (E.pre self.now.expr) }
    {
        let operand = self.part(scope, operand)?;
        note_address(scope, &operand);
        address(self.alloc, &mut scope.types, operand, place)
    }

    /// `*e`. K25.
    fn indirection(
        &self,
        scope: &mut Scope,
        operand: &Expr,
        place: Place,
    ) -> Result<Typed, CheckRefused>
        requires { IsNested self.now.room (E.pre self.now.expr) }
    {
        let operand = self.used_part(scope, operand)?;
        indirection(self.alloc, &scope.types, operand, place)
    }

    /// `+e`, `-e`, `~e`. K26.
    fn integer_unary(
        &self,
        scope: &mut Scope,
        op: UnaryOperator,
        operand: &Expr,
        place: Place,
    ) -> Result<Typed, CheckRefused>
        requires { IsNested self.now.room (E.pre self.now.expr) }
    {
        let operand = self.used_part(scope, operand)?;
        integer_unary(self.alloc, &scope.types, op, operand, place)
    }

    /// `!e`. K26.
    fn negation(
        &self,
        scope: &mut Scope,
        operand: &Expr,
        place: Place,
    ) -> Result<Typed, CheckRefused>
        requires { IsNested self.now.room (E.pre self.now.expr) }
    {
        let operand = self.used_part(scope, operand)?;
        negation(self.alloc, &scope.types, operand, place)
    }

    /// `& * + - ~ !`. K24 to K26.
    pub(crate) fn unary(
        &self,
        scope: &mut Scope,
        op: Unary,
        operand: &Expr,
        place: Place,
    ) -> Result<Typed, CheckRefused>
        requires { IsNested self.now.room (E.pre self.now.expr) }
    {
        match op {
            Unary::Address => self.address(scope, operand, place),
            Unary::Indirection => self.indirection(scope, operand, place),
            Unary::Plus => self.integer_unary(scope, UnaryOperator::Plus, operand, place),
            Unary::Minus => self.integer_unary(scope, UnaryOperator::Minus, operand, place),
            Unary::Complement => {
                self.integer_unary(scope, UnaryOperator::Complement, operand, place)
            }
            Unary::Not => self.negation(scope, operand, place),
        }
    }

    /// `sizeof e`, in which nothing is used. K27.
    pub(crate) fn size_of_expression(
        &self,
        scope: &mut Scope,
        operand: &Expr,
        place: Place,
    ) -> Result<Typed, CheckRefused>
        requires { IsNested self.now.room (E.pre self.now.expr) }
    {
        scope.enter_quiet();
        let operand = self.part(scope, operand)?;
        scope.leave_quiet();
        size_of_expression(&scope.types, &operand, place)
    }

    /// `sizeof(T)`, in which nothing is used. K27.
    pub(crate) fn size_of_type(
        &self,
        scope: &mut Scope,
        name: &TypeName,
        place: Place,
    ) -> Result<Typed, CheckRefused>
        requires { IsNested self.now.room (T.pre self.now.type_name) }
    {
        scope.enter_quiet();
        let kind = self.named_type(scope, name)?;
        scope.leave_quiet();
        size_of_type(&scope.types, kind, place)
    }

    /// `(T)e`. K53 at e, K28.
    pub(crate) fn cast(
        &self,
        scope: &mut Scope,
        name: &TypeName,
        operand: &Expr,
        place: Place,
    ) -> Result<Typed, CheckRefused>
        requires expr { IsNested self.now.room (E.pre self.now.expr) }
        requires type_name { IsNested self.now.room (T.pre self.now.type_name) }
    {
        let kind = self.named_type(scope, name)?;
        let operand = self.value_part(scope, operand)?;
        let kind = unqualified(&scope.types, kind);
        cast_to(self.alloc, &scope.types, kind, operand, place)
    }

    /// `a op b`. K29.
    pub(crate) fn binary(
        &self,
        scope: &mut Scope,
        op: Binary,
        left: &Expr,
        right: &Expr,
        place: Place,
    ) -> Result<Typed, CheckRefused>
        requires { IsNested self.now.room (E.pre self.now.expr) }
    {
        let left = self.used_part(scope, left)?;
        let right = self.used_part(scope, right)?;
        operation(self.alloc, &scope.types, op, left, right, place)
    }

    /// `a ? b : c`. K30.
    pub(crate) fn conditional(
        &self,
        scope: &mut Scope,
        test: &Expr,
        yes: &Expr,
        no: &Expr,
        place: Place,
    ) -> Result<Typed, CheckRefused>
        requires { IsNested self.now.room (E.pre self.now.expr) }
    {
        let test = self.used_part(scope, test)?;
        let yes = self.value_part(scope, yes)?;
        let no = self.value_part(scope, no)?;
        conditional(self.alloc, &mut scope.types, test, yes, no, place)
    }

    /// `l = r`. K46.
    pub(crate) fn assignment(
        &self,
        scope: &mut Scope,
        target: &Expr,
        value: &Expr,
        place: Place,
    ) -> Result<Typed, CheckRefused>
        requires { IsNested self.now.room (E.pre self.now.expr) }
    {
        let target = self.part(scope, target)?;
        let value = self.used_part(scope, value)?;
        let has_const = has_const(scope, target.tree.kind);
        assignment(self.alloc, &scope.types, has_const, target, value, place)
    }

    /// `l op= r`. K46, K29.
    pub(crate) fn compound_assignment(
        &self,
        scope: &mut Scope,
        op: Binary,
        target: &Expr,
        value: &Expr,
        place: Place,
    ) -> Result<Typed, CheckRefused>
        requires { IsNested self.now.room (E.pre self.now.expr) }
    {
        let target = self.part(scope, target)?;
        let value = self.used_part(scope, value)?;
        let has_const = has_const(scope, target.tree.kind);
        compound_assignment(
            self.alloc,
            &scope.types,
            has_const,
            op,
            target,
            value,
            place,
        )
    }

    /// `a, b, ..`.
    pub(crate) fn comma(
        &self,
        scope: &mut Scope,
        parts: &[Expr],
        place: Place,
    ) -> Result<Typed, CheckRefused>
        requires { IsNested self.now.room (E.pre self.now.expr) }
    {
        let values = self.value_parts(scope, parts)?;
        let kind = unqualified(&scope.types, values.last_kind());
        Ok(comma(values, kind, place))
    }
}
