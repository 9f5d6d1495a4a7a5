//! Declarators (C90 6.5.4, 6.5.5).

ghost use Rattle.c_cursor.specs.Taking.{Takes, MayTake, IsNested};

use crate::grammar::Grammar;
use c_cursor::{Goal, List, Mode, ParseRefused, Parser, Read, ReadDeclarator};
use c_lexer::Punctuator;
use c_parse_node::part;
use c_syntax::{Expr, Specifier};
use sqlite_items::Items;
use std::alloc::Global;

impl<
    E: Fn(Global, &mut Parser<'_>, u32, Goal) -> Result<Read<Expr>, ParseRefused>,
    S: Fn(Global, &mut Parser<'_>, u32, List) -> Result<Read<Items<Specifier>>, ParseRefused>,
    D: Fn(Global, &mut Parser<'_>, u32, Mode) -> Result<ReadDeclarator, ParseRefused>,
> Grammar<E, S, D> {
    /// A declarator: stars around a direct one, or a direct one alone.
    pub(crate) fn pointed(
        &self,
        parser: &mut Parser<'_>,
        mode: Mode,
    ) -> Result<ReadDeclarator, ParseRefused>
        requires expr { IsNested self.now.room (E.pre self.now.expr) (E.post self.now.expr) }
        requires specifiers { IsNested self.now.room (S.pre self.now.specifiers) (S.post self.now.specifiers) }
        requires declarator { IsNested self.now.room (D.pre self.now.declarator) (D.post self.now.declarator) }
        ensures { Takes parser.old result parser.new }
    {
        if parser.is_at(Punctuator::Star) {
            self.pointers(parser, mode)
        } else {
            self.direct(parser, mode)
        }
    }

    /// Stars, and the direct declarator in them, which may be absent where no name has to stand.
    fn pointers(&self, parser: &mut Parser<'_>, mode: Mode) -> Result<ReadDeclarator, ParseRefused>
        requires { IsNested self.now.room (D.pre self.now.declarator) (D.post self.now.declarator) }
        ensures { Takes parser.old result parser.new }
    {
        if mode.must_name() && self.room == 0 {
            return Err(parser.too_deep());
        }
        let place = parser.place();
        let pointers = part::pointers(self.alloc, parser)?;
        let inner = self.in_pointers(parser, mode)?;
        Ok(part::pointers_around(place, pointers, inner)?)
    }

    /// The direct declarator in stars; where it is absent, a declarator of no part.
    fn in_pointers(
        &self,
        parser: &mut Parser<'_>,
        mode: Mode,
    ) -> Result<ReadDeclarator, ParseRefused>
        requires { IsNested self.now.room (D.pre self.now.declarator) (D.post self.now.declarator) }
        ensures { MayTake parser.old result parser.new }
    {
        if mode.must_name() || parser.begins_direct(mode) {
            self.deeper_declarator(parser, mode)
        } else {
            Ok(part::nothing(self.alloc, parser.place()))
        }
    }

    /// A direct declarator.
    fn direct(&self, parser: &mut Parser<'_>, mode: Mode) -> Result<ReadDeclarator, ParseRefused>
        requires expr { IsNested self.now.room (E.pre self.now.expr) (E.post self.now.expr) }
        requires specifiers { IsNested self.now.room (S.pre self.now.specifiers) (S.post self.now.specifiers) }
        requires declarator { IsNested self.now.room (D.pre self.now.declarator) (D.post self.now.declarator) }
        ensures { Takes parser.old result parser.new }
    {
        let inner = self.innermost(parser, mode)?;
        self.suffixes(parser, inner)
    }

    /// What a direct declarator begins with: a name, a declarator in parentheses, or a suffix of nothing.
    fn innermost(&self, parser: &mut Parser<'_>, mode: Mode) -> Result<ReadDeclarator, ParseRefused>
        requires expr { IsNested self.now.room (E.pre self.now.expr) (E.post self.now.expr) }
        requires specifiers { IsNested self.now.room (S.pre self.now.specifiers) (S.post self.now.specifiers) }
        requires declarator { IsNested self.now.room (D.pre self.now.declarator) (D.post self.now.declarator) }
        ensures { Takes parser.old result parser.new }
    {
        if parser.is_at_name() {
            return part::plain(self.alloc, parser, mode);
        }
        if mode.must_name() {
            return self.group(parser, mode);
        }
        if parser.is_at(Punctuator::LeftBracket) || parser.begins_parameters_of_nothing() {
            let inner = part::nothing(self.alloc, parser.place());
            return self.suffix(parser, inner);
        }
        self.group(parser, mode)
    }

    /// A declarator in parentheses.
    fn group(&self, parser: &mut Parser<'_>, mode: Mode) -> Result<ReadDeclarator, ParseRefused>
        requires { IsNested self.now.room (D.pre self.now.declarator) (D.post self.now.declarator) }
        ensures { Takes parser.old result parser.new }
    {
        let place = parser.place();
        parser.expect_within(Punctuator::LeftParenthesis, 1, self.room)?;
        let inner = self.deeper_declarator(parser, mode)?;
        parser.expect(Punctuator::RightParenthesis)?;
        Ok(part::group(place, inner)?)
    }

    /// The suffixes of a declarator.
    fn suffixes(
        &self,
        parser: &mut Parser<'_>,
        innermost: ReadDeclarator,
    ) -> Result<ReadDeclarator, ParseRefused>
        requires expr { IsNested self.now.room (E.pre self.now.expr) (E.post self.now.expr) }
        requires specifiers { IsNested self.now.room (S.pre self.now.specifiers) (S.post self.now.specifiers) }
        requires declarator { IsNested self.now.room (D.pre self.now.declarator) (D.post self.now.declarator) }
        ensures { MayTake parser.old result parser.new }
    {
        let mut inner = innermost;
        'more: while parser.is_at(Punctuator::LeftBracket)
            || parser.is_at(Punctuator::LeftParenthesis)
        {
            inner = self.suffix(parser, inner)?;
        }
        Ok(inner)
    }
}
