//! Operands with something behind them: subscripts, calls, members, steps (C90 6.3.2).

ghost use Rattle.c_cursor.specs.Taking.{Takes, MayTake, IsNested};

use crate::grammar::Grammar;
use c_cursor::{Goal, List, Mode, ParseRefused, Parser, Read, ReadDeclarator};
use c_lexer::Punctuator;
use c_parse_node::node;
use c_syntax::{Expr, Specifier, Step};
use sqlite_items::Items;
use std::alloc::Global;

/// What follows an operand.
#[derive(Clone, Copy)]
enum Behind {
    Subscript,
    Arguments,
    Member,
    PointerMember,
    Step(Step),
}

/// What comes behind an operand, where something does.
fn what_is_behind(parser: &Parser<'_>) -> Option<Behind> {
    match parser.punctuator()? {
        Punctuator::LeftBracket => Some(Behind::Subscript),
        Punctuator::LeftParenthesis => Some(Behind::Arguments),
        Punctuator::Dot => Some(Behind::Member),
        Punctuator::Arrow => Some(Behind::PointerMember),
        Punctuator::Increment => Some(Behind::Step(Step::Increment)),
        Punctuator::Decrement => Some(Behind::Step(Step::Decrement)),
        _ => None,
    }
}

impl<
    E: Fn(Global, &mut Parser<'_>, u32, Goal) -> Result<Read<Expr>, ParseRefused>,
    S: Fn(Global, &mut Parser<'_>, u32, List) -> Result<Read<Items<Specifier>>, ParseRefused>,
    D: Fn(Global, &mut Parser<'_>, u32, Mode) -> Result<ReadDeclarator, ParseRefused>,
> Grammar<E, S, D> {
    /// A postfix expression (C90 6.3.2).
    pub(crate) fn postfix(&self, parser: &mut Parser<'_>) -> Result<Read<Expr>, ParseRefused>
        requires { IsNested self.now.room (E.pre self.now.expr) (E.post self.now.expr) }
        ensures { Takes parser.old result parser.new }
    {
        let first = self.primary(parser)?;
        self.behind_all(parser, first)
    }

    /// All that follows an operand.
    fn behind_all(
        &self,
        parser: &mut Parser<'_>,
        first: Read<Expr>,
    ) -> Result<Read<Expr>, ParseRefused>
        requires { IsNested self.now.room (E.pre self.now.expr) (E.post self.now.expr) }
        ensures { MayTake parser.old result parser.new }
    {
        let mut operand = first;
        'more: while let Some(behind) = what_is_behind(parser) {
            operand = self.behind(parser, behind, operand)?;
        }
        Ok(operand)
    }

    /// One thing that follows an operand.
    fn behind(
        &self,
        parser: &mut Parser<'_>,
        behind: Behind,
        operand: Read<Expr>,
    ) -> Result<Read<Expr>, ParseRefused>
        requires { IsNested self.now.room (E.pre self.now.expr) (E.post self.now.expr) }
        ensures { Takes parser.old result parser.new }
    {
        parser.take_within(operand.height, self.room)?;
        match behind {
            Behind::Subscript => self.subscript(parser, operand),
            Behind::Arguments => self.call(parser, operand),
            Behind::Member => self.member(parser, operand),
            Behind::PointerMember => self.pointer_member(parser, operand),
            Behind::Step(step) => Ok(node::stepped_behind(self.alloc, step, operand)?),
        }
    }

    /// What stands in brackets, and the closing one (C90 6.3.2.1).
    fn subscript(
        &self,
        parser: &mut Parser<'_>,
        array: Read<Expr>,
    ) -> Result<Read<Expr>, ParseRefused>
        requires { IsNested self.now.room (E.pre self.now.expr) (E.post self.now.expr) }
        ensures { Takes parser.old result parser.new }
    {
        let index = self.deeper(parser, Goal::Expr)?;
        parser.expect(Punctuator::RightBracket)?;
        Ok(node::subscript(self.alloc, array, index)?)
    }

    /// The arguments of a call, and the closing parenthesis (C90 6.3.2.2).
    fn call(
        &self,
        parser: &mut Parser<'_>,
        function: Read<Expr>,
    ) -> Result<Read<Expr>, ParseRefused>
        requires { IsNested self.now.room (E.pre self.now.expr) (E.post self.now.expr) }
        ensures { Takes parser.old result parser.new }
    {
        let arguments = self.arguments(parser)?;
        parser.expect(Punctuator::RightParenthesis)?;
        Ok(node::call(self.alloc, function, arguments)?)
    }

    /// Arguments with commas between them, or none before a closing parenthesis.
    fn arguments(&self, parser: &mut Parser<'_>) -> Result<Read<Items<Expr>>, ParseRefused>
        requires { IsNested self.now.room (E.pre self.now.expr) (E.post self.now.expr) }
        ensures { MayTake parser.old result parser.new }
    {
        let mut arguments = Read::none(self.alloc);
        if parser.is_at(Punctuator::RightParenthesis) {
            return Ok(arguments);
        }
        self.argument(parser, &mut arguments)?;
        'more: while parser.eat(Punctuator::Comma) {
            self.argument(parser, &mut arguments)?;
        }
        Ok(arguments)
    }

    /// One argument.
    fn argument(
        &self,
        parser: &mut Parser<'_>,
        arguments: &mut Read<Items<Expr>>,
    ) -> Result<(), ParseRefused>
        requires { IsNested self.now.room (E.pre self.now.expr) (E.post self.now.expr) }
        ensures { Takes parser.old result parser.new }
    {
        arguments.add(self.deeper(parser, Goal::Assign)?)
    }

    /// The name of a member (C90 6.3.2.3). It may be one that stands for a type elsewhere.
    fn member(
        &self,
        parser: &mut Parser<'_>,
        record: Read<Expr>,
    ) -> Result<Read<Expr>, ParseRefused>
        ensures { Takes parser.old result parser.new }
    {
        let name = parser.take_name(self.alloc)?;
        Ok(node::member(self.alloc, record, name)?)
    }

    /// The name of a member of what a pointer points to.
    fn pointer_member(
        &self,
        parser: &mut Parser<'_>,
        pointer: Read<Expr>,
    ) -> Result<Read<Expr>, ParseRefused>
        ensures { Takes parser.old result parser.new }
    {
        let name = parser.take_name(self.alloc)?;
        Ok(node::pointer_member(self.alloc, pointer, name)?)
    }
}
