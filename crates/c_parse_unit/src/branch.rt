//! Labelled statements and selections (C90 6.6.1, 6.6.4).

ghost use Rattle.c_cursor.specs.Taking.{Takes, MayTake};
ghost use Rattle.c_parse_unit.specs.Nesting.{IsDeeper};

use crate::node;
use crate::node::Branches;
use crate::statement::Statements;
use c_cursor::{Goal, ParseRefused, Parser, Read};
use c_lexer::{Keyword, Punctuator};
use c_parse_expr::expr;
use c_syntax::Statement;
use sqlite_items::Boxed;
use std::alloc::Global;

impl<F: Fn(Global, &mut Parser<'_>, u32) -> Result<Read<Statement>, ParseRefused>> Statements<F> {
    /// A name as a label, and the statement behind it. The name may be one that stands for a type elsewhere.
    pub(crate) fn label(&self, parser: &mut Parser<'_>) -> Result<Read<Statement>, ParseRefused>
        requires { IsDeeper self.now.room (F.pre self.now.statement) (F.post self.now.statement) }
        ensures { Takes parser.old result parser.new }
    {
        if self.room == 0 {
            return Err(parser.too_deep());
        }
        let place = parser.place();
        let name = parser.take_name(self.alloc)?;
        parser.expect(Punctuator::Colon)?;
        let body = self.deeper_boxed(parser)?;
        Ok(node::label(place, name, body))
    }

    /// `case`, its value, and the statement behind it.
    pub(crate) fn case(&self, parser: &mut Parser<'_>) -> Result<Read<Statement>, ParseRefused>
        requires { IsDeeper self.now.room (F.pre self.now.statement) (F.post self.now.statement) }
        ensures { Takes parser.old result parser.new }
    {
        let place = self.begin(parser)?;
        let value = expr(self.alloc, parser, self.room, Goal::Constant)?;
        parser.expect(Punctuator::Colon)?;
        let body = self.deeper_boxed(parser)?;
        Ok(node::case(place, value, body))
    }

    /// `default`, and the statement behind it.
    pub(crate) fn default(&self, parser: &mut Parser<'_>) -> Result<Read<Statement>, ParseRefused>
        requires { IsDeeper self.now.room (F.pre self.now.statement) (F.post self.now.statement) }
        ensures { Takes parser.old result parser.new }
    {
        let place = self.begin(parser)?;
        parser.expect(Punctuator::Colon)?;
        let body = self.deeper_boxed(parser)?;
        Ok(node::default_label(place, body))
    }

    /// `if`, what is tested, and its statements.
    pub(crate) fn if_statement(
        &self,
        parser: &mut Parser<'_>,
    ) -> Result<Read<Statement>, ParseRefused>
        requires { IsDeeper self.now.room (F.pre self.now.statement) (F.post self.now.statement) }
        ensures { Takes parser.old result parser.new }
    {
        let place = self.begin(parser)?;
        let test = self.control(parser)?;
        let branches = self.branches(parser)?;
        Ok(node::if_statement(place, test, branches))
    }

    /// A statement, and `else` with another one where it follows.
    fn branches(&self, parser: &mut Parser<'_>) -> Result<Branches, ParseRefused>
        requires { IsDeeper self.now.room (F.pre self.now.statement) (F.post self.now.statement) }
        ensures { Takes parser.old result parser.new }
    {
        let body = self.deeper_boxed(parser)?;
        let other = self.otherwise(parser)?;
        Ok(node::make_branches(body, other))
    }

    /// `else` with a statement, where it comes next: it belongs to the nearest `if` that has none.
    fn otherwise(
        &self,
        parser: &mut Parser<'_>,
    ) -> Result<Option<Read<Boxed<Statement>>>, ParseRefused>
        requires { IsDeeper self.now.room (F.pre self.now.statement) (F.post self.now.statement) }
        ensures { MayTake parser.old result parser.new }
    {
        if !parser.is_at_keyword(Keyword::Else) {
            return Ok(None);
        }
        parser.take()?;
        Ok(Some(self.deeper_boxed(parser)?))
    }

    /// `switch`, its value, and a statement.
    pub(crate) fn switch(&self, parser: &mut Parser<'_>) -> Result<Read<Statement>, ParseRefused>
        requires { IsDeeper self.now.room (F.pre self.now.statement) (F.post self.now.statement) }
        ensures { Takes parser.old result parser.new }
    {
        let place = self.begin(parser)?;
        let value = self.control(parser)?;
        let body = self.deeper_boxed(parser)?;
        Ok(node::switch(place, value, body))
    }
}
