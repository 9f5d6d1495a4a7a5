//! Statements (C90 6.6).

ghost use Rattle.c_cursor.specs.Taking.{Takes};
ghost use Rattle.c_parse_unit.specs.Nesting.{IsDeeper};

use crate::node;
use c_cursor::{Goal, ParseRefused, Parser, Read};
use c_lexer::{Keyword, Punctuator};
use c_parse_expr::expr;
use c_syntax::{Expr, Statement, StatementForm};
use fsc_base::Place;
use sqlite_items::Boxed;
use std::alloc::Global;

/// The productions of a statement, where so many nodes may still lie below the one that is read.
#[derive(Clone, Copy)]
pub(crate) struct Statements<F> {
    pub(crate) alloc: Global,
    pub(crate) room: u32,
    /// Reads a statement.
    pub(crate) statement: F,
}

/// Reads a statement, where so many nodes may still lie one above the other.
pub(crate) fn statement(
    alloc: Global,
    parser: &mut Parser<'_>,
    room: u32,
) -> Result<Read<Statement>, ParseRefused>
    ensures { Takes parser.old result parser.new }
{
    if room == 0 {
        return Err(no_room_for_statement(parser));
    }
    Statements {
        alloc,
        room: room - 1,
        statement,
    }
    .form(parser)
}

/// The refusal of the next token where a statement has to begin and there is no room for one.
pub(crate) fn no_room_for_statement(parser: &Parser<'_>) -> ParseRefused {
    if begins_statement(parser) {
        parser.too_deep()
    } else {
        parser.unexpected()
    }
}

/// Whether a statement begins here.
fn begins_statement(parser: &Parser<'_>) -> bool {
    parser.is_at_name()
        || parser.is_at(Punctuator::LeftBrace)
        || parser.is_at(Punctuator::Semicolon)
        || parser.begins_expression()
        || match parser.keyword() {
            Some(keyword) => begins_with(keyword),
            None => false,
        }
}

/// Whether a statement begins with that keyword.
fn begins_with(keyword: Keyword) -> bool {
    match keyword {
        Keyword::Case
        | Keyword::Default
        | Keyword::If
        | Keyword::Switch
        | Keyword::While
        | Keyword::Do
        | Keyword::For
        | Keyword::Goto
        | Keyword::Continue
        | Keyword::Break
        | Keyword::Return => true,
        _ => false,
    }
}

impl<F: Fn(Global, &mut Parser<'_>, u32) -> Result<Read<Statement>, ParseRefused>> Statements<F> {
    /// A statement one node deeper.
    pub(crate) fn deeper(&self, parser: &mut Parser<'_>) -> Result<Read<Statement>, ParseRefused>
        requires { IsDeeper self.now.room (F.pre self.now.statement) (F.post self.now.statement) }
        ensures { Takes parser.old result parser.new }
    {
        (self.statement)(self.alloc, parser, self.room)
    }

    /// A statement one node deeper, in a box.
    pub(crate) fn deeper_boxed(
        &self,
        parser: &mut Parser<'_>,
    ) -> Result<Read<Boxed<Statement>>, ParseRefused>
        requires { IsDeeper self.now.room (F.pre self.now.statement) (F.post self.now.statement) }
        ensures { Takes parser.old result parser.new }
    {
        let read = self.deeper(parser)?;
        let height = read.height;
        let node = Boxed::new(self.alloc, read.node)?;
        Ok(Read { node, height })
    }

    /// A statement of any form.
    pub(crate) fn form(&self, parser: &mut Parser<'_>) -> Result<Read<Statement>, ParseRefused>
        requires { IsDeeper self.now.room (F.pre self.now.statement) (F.post self.now.statement) }
        ensures { Takes parser.old result parser.new }
    {
        if parser.is_at_label() {
            return self.label(parser);
        }
        match parser.keyword() {
            Some(keyword) => self.with_keyword(parser, keyword),
            None => self.without_keyword(parser),
        }
    }

    /// A statement that begins with that keyword, which may be `sizeof`.
    fn with_keyword(
        &self,
        parser: &mut Parser<'_>,
        keyword: Keyword,
    ) -> Result<Read<Statement>, ParseRefused>
        requires { IsDeeper self.now.room (F.pre self.now.statement) (F.post self.now.statement) }
        ensures { Takes parser.old result parser.new }
    {
        match keyword {
            Keyword::Case => self.case(parser),
            Keyword::Default => self.default(parser),
            Keyword::If => self.if_statement(parser),
            Keyword::Switch => self.switch(parser),
            Keyword::While => self.while_loop(parser),
            Keyword::Do => self.do_while(parser),
            Keyword::For => self.for_loop(parser),
            Keyword::Goto => self.goto(parser),
            Keyword::Continue => self.alone(parser, StatementForm::Continue),
            Keyword::Break => self.alone(parser, StatementForm::Break),
            Keyword::Return => self.return_statement(parser),
            _ => self.expression(parser),
        }
    }

    /// A statement that begins with no keyword, and is no label.
    fn without_keyword(&self, parser: &mut Parser<'_>) -> Result<Read<Statement>, ParseRefused>
        requires { IsDeeper self.now.room (F.pre self.now.statement) (F.post self.now.statement) }
        ensures { Takes parser.old result parser.new }
    {
        match parser.punctuator() {
            Some(Punctuator::LeftBrace) => Ok(node::block(self.block(parser)?)),
            Some(Punctuator::Semicolon) => self.null(parser),
            _ => self.named(parser),
        }
    }

    /// The null statement (C90 6.6.3).
    fn null(&self, parser: &mut Parser<'_>) -> Result<Read<Statement>, ParseRefused>
        ensures { Takes parser.old result parser.new }
    {
        let place = parser.place();
        parser.take()?;
        Ok(node::statement(place, StatementForm::Expression(None), 0))
    }

    /// An expression statement. A name that stands for a type begins none, and might be a label up to the token behind it, which
    /// is then unexpected.
    fn named(&self, parser: &mut Parser<'_>) -> Result<Read<Statement>, ParseRefused>
        ensures { Takes parser.old result parser.new }
    {
        if parser.is_at_type_name() {
            parser.take_within(1, self.room)?;
            return Err(parser.unexpected());
        }
        self.expression(parser)
    }

    /// An expression and `;` (C90 6.6.3).
    fn expression(&self, parser: &mut Parser<'_>) -> Result<Read<Statement>, ParseRefused>
        ensures { Takes parser.old result parser.new }
    {
        let place = parser.place();
        let value = expr(self.alloc, parser, self.room, Goal::Expr)?;
        parser.expect(Punctuator::Semicolon)?;
        Ok(node::expression(place, value))
    }

    /// A controlling expression in parentheses.
    pub(crate) fn control(&self, parser: &mut Parser<'_>) -> Result<Read<Expr>, ParseRefused>
        ensures { Takes parser.old result parser.new }
    {
        parser.expect(Punctuator::LeftParenthesis)?;
        let value = expr(self.alloc, parser, self.room, Goal::Expr)?;
        parser.expect(Punctuator::RightParenthesis)?;
        Ok(value)
    }

    /// Takes the next token, which begins a statement with something in it. Answers its place. Refused as too deep where there is no
    /// room for that.
    pub(crate) fn begin(&self, parser: &mut Parser<'_>) -> Result<Place, ParseRefused>
        ensures { Takes parser.old result parser.new }
    {
        let place = parser.place();
        parser.take_within(1, self.room)?;
        Ok(place)
    }
}
