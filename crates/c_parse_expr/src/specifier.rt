//! Lists of specifiers (C90 6.5).

ghost use Rattle.c_cursor.specs.Taking.{Takes, IsNested};

use crate::grammar::Grammar;
use c_cursor::{Goal, List, Mode, ParseRefused, Parser, Read, ReadDeclarator, SpecifierToken};
use c_parse_node::{alias, word};
use c_syntax::{Expr, Specifier, SpecifierForm};
use sqlite_items::Items;
use std::alloc::Global;

impl<
    E: Fn(Global, &mut Parser<'_>, u32, Goal) -> Result<Read<Expr>, ParseRefused>,
    S: Fn(Global, &mut Parser<'_>, u32, List) -> Result<Read<Items<Specifier>>, ParseRefused>,
    D: Fn(Global, &mut Parser<'_>, u32, Mode) -> Result<ReadDeclarator, ParseRefused>,
> Grammar<E, S, D> {
    /// Specifiers, one at least.
    pub(crate) fn list(
        &self,
        parser: &mut Parser<'_>,
        list: List,
    ) -> Result<Read<Items<Specifier>>, ParseRefused>
        requires expr { IsNested self.now.room (E.pre self.now.expr) (E.post self.now.expr) }
        requires specifiers { IsNested self.now.room (S.pre self.now.specifiers) (S.post self.now.specifiers) }
        requires declarator { IsNested self.now.room (D.pre self.now.declarator) (D.post self.now.declarator) }
        ensures { Takes parser.old result parser.new }
    {
        let mut read = Read::none(self.alloc);
        let mut has_type = self.specifier(parser, list, false, &mut read)?;
        'more: while parser.specifier(list, has_type).is_some() {
            has_type = self.specifier(parser, list, has_type, &mut read)?;
        }
        Ok(read)
    }

    /// Adds one specifier to a list, which may have a type specifier before it. Answers whether it has one now.
    fn specifier(
        &self,
        parser: &mut Parser<'_>,
        list: List,
        has_type: bool,
        read: &mut Read<Items<Specifier>>,
    ) -> Result<bool, ParseRefused>
        requires expr { IsNested self.now.room (E.pre self.now.expr) (E.post self.now.expr) }
        requires specifiers { IsNested self.now.room (S.pre self.now.specifiers) (S.post self.now.specifiers) }
        requires declarator { IsNested self.now.room (D.pre self.now.declarator) (D.post self.now.declarator) }
        ensures { Takes parser.old result parser.new }
    {
        let Some(token) = parser.specifier(list, has_type) else {
            return Err(parser.unexpected());
        };
        read.add(self.specifier_of(parser, token)?)?;
        Ok(has_type || token.is_type())
    }

    /// The specifier that begins with the next token, which is this one.
    fn specifier_of(
        &self,
        parser: &mut Parser<'_>,
        token: SpecifierToken,
    ) -> Result<Read<Specifier>, ParseRefused>
        requires expr { IsNested self.now.room (E.pre self.now.expr) (E.post self.now.expr) }
        requires specifiers { IsNested self.now.room (S.pre self.now.specifiers) (S.post self.now.specifiers) }
        requires declarator { IsNested self.now.room (D.pre self.now.declarator) (D.post self.now.declarator) }
        ensures { Takes parser.old result parser.new }
    {
        match token {
            SpecifierToken::Storage(storage) => word(parser, SpecifierForm::Storage(storage)),
            SpecifierToken::Keyword(keyword) => word(parser, SpecifierForm::Keyword(keyword)),
            SpecifierToken::Qualifier(qualifier) => {
                word(parser, SpecifierForm::Qualifier(qualifier))
            }
            SpecifierToken::Record(kind) => self.record(parser, kind),
            SpecifierToken::Enum => self.enumeration(parser),
            SpecifierToken::Alias => alias(self.alloc, parser),
        }
    }
}
