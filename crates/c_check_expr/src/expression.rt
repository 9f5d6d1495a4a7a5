//! An expression by its form.

ghost use Rattle.std.specs.Prelude.{◌≡◌};
ghost use Rattle.c_check_expr.specs.Nested.{IsNested};

use crate::part::Expressions;
use crate::primary::{integer, name, text};
use c_conversion::{Typed, limited, number};
use c_scope::Scope;
use c_syntax::{Expr, ExprForm, TypeName};
use c_types::{INT, TypeId};
use check_refusal::CheckRefused;
use fsc_base::Place;
use std::alloc::Global;

impl<
    E: Fn(Global, &mut Scope, u32, &Expr) -> Result<Typed, CheckRefused>,
    T: Fn(Global, &mut Scope, u32, &TypeName) -> Result<TypeId, CheckRefused>,
> Expressions<E, T> {
    /// A form that stands at this place.
    fn form(&self, scope: &mut Scope, form: &ExprForm, place: Place) -> Result<Typed, CheckRefused>
        requires expr { IsNested self.now.room (E.pre self.now.expr) }
        requires type_name { IsNested self.now.room (T.pre self.now.type_name) }
    {
        match form {
            ExprForm::Name(id) => name(scope, id, place),
            ExprForm::Integer(value, basic) => Ok(integer(*value, *basic, place)),
            ExprForm::Character(value) => Ok(number(*value, INT, place)),
            ExprForm::Text(bytes) => text(scope, bytes, place),
            ExprForm::Parenthesis(e) => self.part(scope, e.get()),
            ExprForm::Subscript(a, b) => self.subscript(scope, a.get(), b.get(), place),
            ExprForm::Call(f, arguments) => {
                self.call(scope, f.get(), arguments.as_slice(), place)
            }
            ExprForm::Member(e, m) => self.member(scope, e.get(), m, place),
            ExprForm::PointerMember(e, m) => self.pointer_member(scope, e.get(), m, place),
            ExprForm::Postfix(by, e) => self.increment(scope, *by, false, e.get(), place),
            ExprForm::Prefix(by, e) => self.increment(scope, *by, true, e.get(), place),
            ExprForm::Unary(op, e) => self.unary(scope, *op, e.get(), place),
            ExprForm::SizeOfExpr(e) => self.size_of_expression(scope, e.get(), place),
            ExprForm::SizeOfType(t) => self.size_of_type(scope, t.get(), place),
            ExprForm::Cast(t, e) => self.cast(scope, t.get(), e.get(), place),
            ExprForm::Binary(op, a, b) => self.binary(scope, *op, a.get(), b.get(), place),
            ExprForm::Conditional(c, a, b) => {
                self.conditional(scope, c.get(), a.get(), b.get(), place)
            }
            ExprForm::Assign(None, l, r) => self.assignment(scope, l.get(), r.get(), place),
            ExprForm::Assign(Some(op), l, r) => {
                self.compound_assignment(scope, *op, l.get(), r.get(), place)
            }
            ExprForm::Comma(parts) => self.comma(scope, parts.as_slice(), place),
        }
    }

    /// An expression before it is used for its value, whose parts stand one level deeper: its typed tree, or the first rule that it
    /// breaks, and where. L09 where its pending size is above 200.
    pub fn raw(&self, scope: &mut Scope, e: &Expr) -> Result<Typed, CheckRefused>
        requires expr { IsNested self.now.room (E.pre self.now.expr) }
        requires type_name { IsNested self.now.room (T.pre self.now.type_name) }
    {
        limited(self.form(scope, &e.form, e.place)?)
    }
}
