//! Primary expressions (C90 6.3.1).

ghost use Rattle.c_cursor.specs.Taking.{Takes, IsNested};

use crate::grammar::Grammar;
use c_cursor::{Goal, List, Mode, ParseRefused, Parser, Read, ReadDeclarator};
use c_lexer::Punctuator;
use c_parse_node::{node, token};
use c_syntax::{Expr, Specifier};
use sqlite_items::Items;
use std::alloc::Global;

impl<
    E: Fn(Global, &mut Parser<'_>, u32, Goal) -> Result<Read<Expr>, ParseRefused>,
    S: Fn(Global, &mut Parser<'_>, u32, List) -> Result<Read<Items<Specifier>>, ParseRefused>,
    D: Fn(Global, &mut Parser<'_>, u32, Mode) -> Result<ReadDeclarator, ParseRefused>,
> Grammar<E, S, D> {
    /// A primary expression (C90 6.3.1).
    pub(crate) fn primary(&self, parser: &mut Parser<'_>) -> Result<Read<Expr>, ParseRefused>
        requires { IsNested self.now.room (E.pre self.now.expr) (E.post self.now.expr) }
        ensures { Takes parser.old result parser.new }
    {
        if parser.is_at(Punctuator::LeftParenthesis) {
            self.parenthesis(parser)
        } else {
            token(self.alloc, parser)
        }
    }

    /// An expression in parentheses.
    fn parenthesis(&self, parser: &mut Parser<'_>) -> Result<Read<Expr>, ParseRefused>
        requires { IsNested self.now.room (E.pre self.now.expr) (E.post self.now.expr) }
        ensures { Takes parser.old result parser.new }
    {
        let place = parser.place();
        parser.take_within(1, self.room)?;
        let inside = self.deeper(parser, Goal::Expr)?;
        parser.expect(Punctuator::RightParenthesis)?;
        Ok(node::parenthesis(self.alloc, place, inside)?)
    }
}
