//! Iterations (C90 6.6.5).

ghost use Rattle.c_cursor.specs.Taking.{Takes, MayTake};
ghost use Rattle.c_parse_unit.specs.Nesting.{IsDeeper};

use crate::node;
use crate::node::Header;
use crate::statement::Statements;
use c_cursor::{Goal, ParseRefused, Parser, Read};
use c_lexer::{Keyword, Punctuator};
use c_parse_expr::expr;
use c_syntax::{Expr, Statement};
use std::alloc::Global;

/// An expression that may be absent, and the height of what is there.
fn height_of(read: &Option<Read<Expr>>) -> u32 {
    match read {
        Some(read) => read.height,
        None => 0,
    }
}

/// The expression alone.
fn expr_of(read: Option<Read<Expr>>) -> Option<Expr> {
    match read {
        Some(read) => Some(read.node),
        None => None,
    }
}

/// What stands in the parentheses of a `for`.
fn header(start: Option<Read<Expr>>, test: Option<Read<Expr>>, step: Option<Read<Expr>>) -> Header {
    let height = height_of(&start)
        .max(height_of(&test))
        .max(height_of(&step));
    Header {
        start: expr_of(start),
        test: expr_of(test),
        step: expr_of(step),
        height,
    }
}

/// Takes the next token, which has to be that keyword; else it is refused as unexpected.
fn expect_keyword(parser: &mut Parser<'_>, keyword: Keyword) -> Result<(), ParseRefused>
    ensures { Takes parser.old result parser.new }
{
    if !parser.is_at_keyword(keyword) {
        return Err(parser.unexpected());
    }
    parser.take()
}

impl<F: Fn(Global, &mut Parser<'_>, u32) -> Result<Read<Statement>, ParseRefused>> Statements<F> {
    /// `while`, what is tested, and a statement.
    pub(crate) fn while_loop(
        &self,
        parser: &mut Parser<'_>,
    ) -> Result<Read<Statement>, ParseRefused>
        requires { IsDeeper self.now.room (F.pre self.now.statement) (F.post self.now.statement) }
        ensures { Takes parser.old result parser.new }
    {
        let place = self.begin(parser)?;
        let test = self.control(parser)?;
        let body = self.deeper_boxed(parser)?;
        Ok(node::while_loop(place, test, body))
    }

    /// `do`, a statement, `while`, what is tested, and `;`.
    pub(crate) fn do_while(&self, parser: &mut Parser<'_>) -> Result<Read<Statement>, ParseRefused>
        requires { IsDeeper self.now.room (F.pre self.now.statement) (F.post self.now.statement) }
        ensures { Takes parser.old result parser.new }
    {
        let place = self.begin(parser)?;
        let body = self.deeper_boxed(parser)?;
        expect_keyword(parser, Keyword::While)?;
        let test = self.control(parser)?;
        parser.expect(Punctuator::Semicolon)?;
        Ok(node::do_while(place, body, test))
    }

    /// `for`, what stands in its parentheses, and a statement.
    pub(crate) fn for_loop(&self, parser: &mut Parser<'_>) -> Result<Read<Statement>, ParseRefused>
        requires { IsDeeper self.now.room (F.pre self.now.statement) (F.post self.now.statement) }
        ensures { Takes parser.old result parser.new }
    {
        let place = self.begin(parser)?;
        let header = self.header(parser)?;
        let body = self.deeper_boxed(parser)?;
        Ok(node::for_loop(place, header, body))
    }

    /// Three expressions in parentheses with `;` between them, each of which may be absent.
    fn header(&self, parser: &mut Parser<'_>) -> Result<Header, ParseRefused>
        ensures { Takes parser.old result parser.new }
    {
        parser.expect(Punctuator::LeftParenthesis)?;
        let start = self.expression_before(parser, Punctuator::Semicolon)?;
        let test = self.expression_before(parser, Punctuator::Semicolon)?;
        let step = self.expression_before(parser, Punctuator::RightParenthesis)?;
        Ok(header(start, test, step))
    }

    /// An expression, which may be absent, and the punctuator behind it.
    pub(crate) fn expression_before(
        &self,
        parser: &mut Parser<'_>,
        end: Punctuator,
    ) -> Result<Option<Read<Expr>>, ParseRefused>
        ensures { Takes parser.old result parser.new }
    {
        if parser.is_at(end) {
            parser.take()?;
            return Ok(None);
        }
        let value = expr(self.alloc, parser, self.room, Goal::Expr)?;
        parser.expect(end)?;
        Ok(Some(value))
    }
}
