//! Assignments (C90 6.3.16).

ghost use Rattle.c_cursor.specs.Taking.{Takes, IsNested};

use crate::grammar::Grammar;
use c_cursor::{Goal, List, Mode, ParseRefused, Parser, Read, ReadDeclarator, assignment_operator};
use c_parse_node::node;
use c_syntax::{Binary, Expr, ExprForm, Specifier};
use sqlite_items::Items;
use std::alloc::Global;

/// Whether an expression is a unary one, as a left side has to be, among conditional expressions.
fn is_unary(form: &ExprForm) -> bool {
    match form {
        ExprForm::Binary(_, _, _) | ExprForm::Conditional(_, _, _) | ExprForm::Cast(_, _) => false,
        _ => true,
    }
}

/// The assignment that comes next, where one may stand behind that expression.
fn assignment_behind(left: &Expr, parser: &Parser<'_>) -> Option<Option<Binary>> {
    if !is_unary(&left.form) {
        return None;
    }
    assignment_operator(parser.punctuator()?)
}

impl<
    E: Fn(Global, &mut Parser<'_>, u32, Goal) -> Result<Read<Expr>, ParseRefused>,
    S: Fn(Global, &mut Parser<'_>, u32, List) -> Result<Read<Items<Specifier>>, ParseRefused>,
    D: Fn(Global, &mut Parser<'_>, u32, Mode) -> Result<ReadDeclarator, ParseRefused>,
> Grammar<E, S, D> {
    /// An assignment expression (C90 6.3.16). An assignment operator behind anything but a unary expression is left standing.
    pub(crate) fn assign(&self, parser: &mut Parser<'_>) -> Result<Read<Expr>, ParseRefused>
        requires expr { IsNested self.now.room (E.pre self.now.expr) (E.post self.now.expr) }
        requires specifiers { IsNested self.now.room (S.pre self.now.specifiers) (S.post self.now.specifiers) }
        requires declarator { IsNested self.now.room (D.pre self.now.declarator) (D.post self.now.declarator) }
        ensures { Takes parser.old result parser.new }
    {
        let left = self.conditional(parser)?;
        match assignment_behind(&left.node, parser) {
            Some(operator) => self.assigned(parser, operator, left),
            None => Ok(left),
        }
    }

    /// An assignment operator behind its left side, and the right side.
    fn assigned(
        &self,
        parser: &mut Parser<'_>,
        operator: Option<Binary>,
        left: Read<Expr>,
    ) -> Result<Read<Expr>, ParseRefused>
        requires { IsNested self.now.room (E.pre self.now.expr) (E.post self.now.expr) }
        ensures { Takes parser.old result parser.new }
    {
        parser.take_within(left.height, self.room)?;
        let right = self.deeper(parser, Goal::Assign)?;
        Ok(node::assignment(self.alloc, operator, left, right)?)
    }
}
