//! Suffixes of declarators: arrays and functions (C90 6.5.4.2, 6.5.4.3).

ghost use Rattle.c_cursor.specs.Taking.{Takes, MayTake, IsNested};

use crate::grammar::Grammar;
use c_cursor::{Goal, List, Mode, ParseRefused, Parser, Read, ReadDeclarator};
use c_lexer::Punctuator;
use c_parse_node::{names, no_names, part};
use c_syntax::{Expr, PartForm, Specifier};
use sqlite_items::{Boxed, Items};
use std::alloc::Global;

impl<
    E: Fn(Global, &mut Parser<'_>, u32, Goal) -> Result<Read<Expr>, ParseRefused>,
    S: Fn(Global, &mut Parser<'_>, u32, List) -> Result<Read<Items<Specifier>>, ParseRefused>,
    D: Fn(Global, &mut Parser<'_>, u32, Mode) -> Result<ReadDeclarator, ParseRefused>,
> Grammar<E, S, D> {
    /// One suffix behind a declarator.
    pub(crate) fn suffix(
        &self,
        parser: &mut Parser<'_>,
        inner: ReadDeclarator,
    ) -> Result<ReadDeclarator, ParseRefused>
        requires expr { IsNested self.now.room (E.pre self.now.expr) (E.post self.now.expr) }
        requires specifiers { IsNested self.now.room (S.pre self.now.specifiers) (S.post self.now.specifiers) }
        requires declarator { IsNested self.now.room (D.pre self.now.declarator) (D.post self.now.declarator) }
        ensures { Takes parser.old result parser.new }
    {
        if parser.is_at(Punctuator::LeftBracket) {
            self.array(parser, inner)
        } else {
            self.function(parser, inner)
        }
    }

    /// An array behind its declarator (C90 6.5.4.2).
    fn array(
        &self,
        parser: &mut Parser<'_>,
        inner: ReadDeclarator,
    ) -> Result<ReadDeclarator, ParseRefused>
        requires { IsNested self.now.room (E.pre self.now.expr) (E.post self.now.expr) }
        ensures { Takes parser.old result parser.new }
    {
        parser.take_within(inner.height, self.room)?;
        if parser.is_at(Punctuator::RightBracket) {
            parser.take()?;
            return Ok(part::array(inner, PartForm::Array(None), 0)?);
        }
        self.sized_array(parser, inner)
    }

    /// The size of an array, and the closing bracket.
    fn sized_array(
        &self,
        parser: &mut Parser<'_>,
        inner: ReadDeclarator,
    ) -> Result<ReadDeclarator, ParseRefused>
        requires { IsNested self.now.room (E.pre self.now.expr) (E.post self.now.expr) }
        ensures { Takes parser.old result parser.new }
    {
        let size = self.deeper(parser, Goal::Constant)?;
        parser.expect(Punctuator::RightBracket)?;
        let height = size.height;
        let form = PartForm::Array(Some(Boxed::new(self.alloc, size.node)?));
        Ok(part::array(inner, form, height)?)
    }

    /// A function behind its declarator (C90 6.5.4.3).
    fn function(
        &self,
        parser: &mut Parser<'_>,
        inner: ReadDeclarator,
    ) -> Result<ReadDeclarator, ParseRefused>
        requires specifiers { IsNested self.now.room (S.pre self.now.specifiers) (S.post self.now.specifiers) }
        requires declarator { IsNested self.now.room (D.pre self.now.declarator) (D.post self.now.declarator) }
        ensures { Takes parser.old result parser.new }
    {
        parser.take_within(inner.height, self.room)?;
        if parser.is_at(Punctuator::RightParenthesis) {
            no_names(self.alloc, parser, inner)
        } else if parser.begins_specifiers(List::WithStorage) {
            self.parameters(parser, inner)
        } else {
            names(self.alloc, parser, inner)
        }
    }
}
