//! Operands with something before them: casts, unary operators, `sizeof` (C90 6.3.3, 6.3.4).

ghost use Rattle.c_cursor.specs.Taking.{Takes, IsNested};

use crate::grammar::Grammar;
use c_cursor::{
    Goal, List, Mode, ParseRefused, Parser, Read, ReadDeclarator, prefix_operator, step_operator,
};
use c_lexer::{Keyword, Punctuator};
use c_parse_node::node;
use c_syntax::{Expr, Specifier, Step, Unary};
use fsc_base::Place;
use sqlite_items::Items;
use std::alloc::Global;

/// What an operand begins with.
#[derive(Clone, Copy)]
enum Prefix {
    Step(Step),
    Operator(Unary),
    SizeOf,
    Nothing,
}

/// What comes before an operand that begins with that punctuator.
fn spelled(punctuator: Punctuator) -> Prefix {
    match step_operator(punctuator) {
        Some(step) => Prefix::Step(step),
        None => match prefix_operator(punctuator) {
            Some(operator) => Prefix::Operator(operator),
            None => Prefix::Nothing,
        },
    }
}

/// What comes before the operand that begins here.
fn prefix_at(parser: &Parser<'_>) -> Prefix {
    match parser.punctuator() {
        Some(punctuator) => spelled(punctuator),
        None => {
            if parser.is_at_keyword(Keyword::Sizeof) {
                Prefix::SizeOf
            } else {
                Prefix::Nothing
            }
        }
    }
}

impl<
    E: Fn(Global, &mut Parser<'_>, u32, Goal) -> Result<Read<Expr>, ParseRefused>,
    S: Fn(Global, &mut Parser<'_>, u32, List) -> Result<Read<Items<Specifier>>, ParseRefused>,
    D: Fn(Global, &mut Parser<'_>, u32, Mode) -> Result<ReadDeclarator, ParseRefused>,
> Grammar<E, S, D> {
    /// A cast, or a unary expression (C90 6.3.4).
    pub(crate) fn cast(&self, parser: &mut Parser<'_>) -> Result<Read<Expr>, ParseRefused>
        requires expr { IsNested self.now.room (E.pre self.now.expr) (E.post self.now.expr) }
        requires specifiers { IsNested self.now.room (S.pre self.now.specifiers) (S.post self.now.specifiers) }
        requires declarator { IsNested self.now.room (D.pre self.now.declarator) (D.post self.now.declarator) }
        ensures { Takes parser.old result parser.new }
    {
        if parser.begins_type_in_parentheses() {
            self.cast_to(parser)
        } else {
            self.unary(parser)
        }
    }

    /// A type name in parentheses, and the operand behind it.
    fn cast_to(&self, parser: &mut Parser<'_>) -> Result<Read<Expr>, ParseRefused>
        requires expr { IsNested self.now.room (E.pre self.now.expr) (E.post self.now.expr) }
        requires specifiers { IsNested self.now.room (S.pre self.now.specifiers) (S.post self.now.specifiers) }
        requires declarator { IsNested self.now.room (D.pre self.now.declarator) (D.post self.now.declarator) }
        ensures { Takes parser.old result parser.new }
    {
        let place = parser.place();
        parser.take_within(1, self.room)?;
        let name = self.type_name(parser)?;
        parser.expect_within(Punctuator::RightParenthesis, name.height, self.room)?;
        let operand = self.deeper(parser, Goal::Cast)?;
        Ok(node::cast(self.alloc, place, name, operand)?)
    }

    /// A unary expression (C90 6.3.3).
    pub(crate) fn unary(&self, parser: &mut Parser<'_>) -> Result<Read<Expr>, ParseRefused>
        requires expr { IsNested self.now.room (E.pre self.now.expr) (E.post self.now.expr) }
        requires specifiers { IsNested self.now.room (S.pre self.now.specifiers) (S.post self.now.specifiers) }
        requires declarator { IsNested self.now.room (D.pre self.now.declarator) (D.post self.now.declarator) }
        ensures { Takes parser.old result parser.new }
    {
        match prefix_at(parser) {
            Prefix::Step(step) => self.stepped(parser, step),
            Prefix::Operator(operator) => self.operated(parser, operator),
            Prefix::SizeOf => self.size(parser),
            Prefix::Nothing => self.postfix(parser),
        }
    }

    /// `++` or `--`, and a unary expression.
    fn stepped(&self, parser: &mut Parser<'_>, step: Step) -> Result<Read<Expr>, ParseRefused>
        requires { IsNested self.now.room (E.pre self.now.expr) (E.post self.now.expr) }
        ensures { Takes parser.old result parser.new }
    {
        let place = parser.place();
        parser.take_within(1, self.room)?;
        let operand = self.deeper(parser, Goal::Unary)?;
        Ok(node::stepped_before(self.alloc, place, step, operand)?)
    }

    /// `& * + - ~ !`, and a cast or a unary expression.
    fn operated(&self, parser: &mut Parser<'_>, operator: Unary) -> Result<Read<Expr>, ParseRefused>
        requires { IsNested self.now.room (E.pre self.now.expr) (E.post self.now.expr) }
        ensures { Takes parser.old result parser.new }
    {
        let place = parser.place();
        parser.take_within(1, self.room)?;
        let operand = self.deeper(parser, Goal::Cast)?;
        Ok(node::unary(self.alloc, place, operator, operand)?)
    }

    /// `sizeof`, with a type name in parentheses or a unary expression (C90 6.3.3.4).
    fn size(&self, parser: &mut Parser<'_>) -> Result<Read<Expr>, ParseRefused>
        requires expr { IsNested self.now.room (E.pre self.now.expr) (E.post self.now.expr) }
        requires specifiers { IsNested self.now.room (S.pre self.now.specifiers) (S.post self.now.specifiers) }
        requires declarator { IsNested self.now.room (D.pre self.now.declarator) (D.post self.now.declarator) }
        ensures { Takes parser.old result parser.new }
    {
        let place = parser.place();
        parser.take_within(1, self.room)?;
        if parser.begins_type_in_parentheses() {
            self.size_of_type(parser, place)
        } else {
            self.size_of_expr(parser, place)
        }
    }

    /// A type name in parentheses behind `sizeof`. No suffix follows it.
    fn size_of_type(
        &self,
        parser: &mut Parser<'_>,
        place: Place,
    ) -> Result<Read<Expr>, ParseRefused>
        requires specifiers { IsNested self.now.room (S.pre self.now.specifiers) (S.post self.now.specifiers) }
        requires declarator { IsNested self.now.room (D.pre self.now.declarator) (D.post self.now.declarator) }
        ensures { Takes parser.old result parser.new }
    {
        parser.take_within(2, self.room)?;
        let name = self.type_name(parser)?;
        parser.expect_within(Punctuator::RightParenthesis, name.height, self.room)?;
        Ok(node::size_of_type(self.alloc, place, name)?)
    }

    /// A unary expression behind `sizeof`.
    fn size_of_expr(
        &self,
        parser: &mut Parser<'_>,
        place: Place,
    ) -> Result<Read<Expr>, ParseRefused>
        requires { IsNested self.now.room (E.pre self.now.expr) (E.post self.now.expr) }
        ensures { Takes parser.old result parser.new }
    {
        let operand = self.deeper(parser, Goal::Unary)?;
        Ok(node::size_of_expr(self.alloc, place, operand)?)
    }
}
