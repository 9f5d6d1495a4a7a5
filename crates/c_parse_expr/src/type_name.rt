//! Type names (C90 6.5.5).

ghost use Rattle.c_cursor.specs.Taking.{Takes, MayTake, IsNested};

use crate::grammar::Grammar;
use c_cursor::{Goal, List, Mode, ParseRefused, Parser, Read, ReadDeclarator};
use c_parse_node::type_name;
use c_syntax::{Declarator, Expr, Specifier, TypeName};
use sqlite_items::Items;
use std::alloc::Global;

impl<
    E: Fn(Global, &mut Parser<'_>, u32, Goal) -> Result<Read<Expr>, ParseRefused>,
    S: Fn(Global, &mut Parser<'_>, u32, List) -> Result<Read<Items<Specifier>>, ParseRefused>,
    D: Fn(Global, &mut Parser<'_>, u32, Mode) -> Result<ReadDeclarator, ParseRefused>,
> Grammar<E, S, D> {
    /// A type name: specifiers without a storage class, and an abstract declarator where one begins.
    pub(crate) fn type_name(&self, parser: &mut Parser<'_>) -> Result<Read<TypeName>, ParseRefused>
        requires specifiers { IsNested self.now.room (S.pre self.now.specifiers) (S.post self.now.specifiers) }
        requires declarator { IsNested self.now.room (D.pre self.now.declarator) (D.post self.now.declarator) }
        ensures { Takes parser.old result parser.new }
    {
        let place = parser.place();
        let specifiers = self.deeper_specifiers(parser, List::WithoutStorage)?;
        let declarator = self.abstract_declarator(parser)?;
        Ok(type_name(place, specifiers, declarator))
    }

    /// An abstract declarator, where one begins.
    fn abstract_declarator(
        &self,
        parser: &mut Parser<'_>,
    ) -> Result<Option<Read<Declarator>>, ParseRefused>
        requires { IsNested self.now.room (D.pre self.now.declarator) (D.post self.now.declarator) }
        ensures { MayTake parser.old result parser.new }
    {
        if !parser.begins_declarator(Mode::Abstract) {
            return Ok(None);
        }
        let declarator = self.deeper_declarator(parser, Mode::Abstract)?;
        Ok(Some(declarator.read()))
    }
}
