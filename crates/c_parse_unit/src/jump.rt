//! Jumps (C90 6.6.6).

ghost use Rattle.c_cursor.specs.Taking.{Takes};

use crate::node;
use crate::statement::Statements;
use c_cursor::{ParseRefused, Parser, Read};
use c_lexer::Punctuator;
use c_syntax::{Statement, StatementForm};
use std::alloc::Global;

impl<F: Fn(Global, &mut Parser<'_>, u32) -> Result<Read<Statement>, ParseRefused>> Statements<F> {
    /// `goto`, a name, and `;`.
    pub(crate) fn goto(&self, parser: &mut Parser<'_>) -> Result<Read<Statement>, ParseRefused>
        ensures { Takes parser.old result parser.new }
    {
        let place = parser.place();
        parser.take()?;
        let name = parser.take_name(self.alloc)?;
        parser.expect(Punctuator::Semicolon)?;
        Ok(node::statement(place, StatementForm::Goto(name), 0))
    }

    /// A keyword that is a statement with `;`.
    pub(crate) fn alone(
        &self,
        parser: &mut Parser<'_>,
        form: StatementForm<Statement>,
    ) -> Result<Read<Statement>, ParseRefused>
        ensures { Takes parser.old result parser.new }
    {
        let place = parser.place();
        parser.take()?;
        parser.expect(Punctuator::Semicolon)?;
        Ok(node::statement(place, form, 0))
    }

    /// `return`, an expression, which may be absent, and `;`.
    pub(crate) fn return_statement(
        &self,
        parser: &mut Parser<'_>,
    ) -> Result<Read<Statement>, ParseRefused>
        ensures { Takes parser.old result parser.new }
    {
        let place = parser.place();
        parser.take()?;
        match self.expression_before(parser, Punctuator::Semicolon)? {
            Some(value) => Ok(node::return_value(place, value)),
            None => Ok(node::statement(place, StatementForm::Return(None), 0)),
        }
    }
}
