//! Tags, and enumerations (C90 6.5.2.2, 6.5.2.3).

ghost use Rattle.c_cursor.specs.Taking.{Takes, MayTake, IsNested};

use crate::grammar::Grammar;
use c_cursor::{Goal, List, Mode, ParseRefused, Parser, Read, ReadDeclarator};
use c_lexer::Punctuator;
use c_parse_node::enumeration;
use c_syntax::{Enumerator, Expr, Specifier};
use fsc_base::{Name, Place};
use sqlite_items::Items;
use std::alloc::Global;

impl<
    E: Fn(Global, &mut Parser<'_>, u32, Goal) -> Result<Read<Expr>, ParseRefused>,
    S: Fn(Global, &mut Parser<'_>, u32, List) -> Result<Read<Items<Specifier>>, ParseRefused>,
    D: Fn(Global, &mut Parser<'_>, u32, Mode) -> Result<ReadDeclarator, ParseRefused>,
> Grammar<E, S, D> {
    /// `enum`, with a tag, a body or both.
    pub(crate) fn enumeration(
        &self,
        parser: &mut Parser<'_>,
    ) -> Result<Read<Specifier>, ParseRefused>
        requires { IsNested self.now.room (E.pre self.now.expr) (E.post self.now.expr) }
        ensures { Takes parser.old result parser.new }
    {
        let place = parser.place();
        parser.take()?;
        let tag = enumeration::tag(self.alloc, parser)?;
        if parser.is_at(Punctuator::LeftBrace) {
            self.enum_in_braces(parser, place, tag)
        } else {
            enumeration::enum_tag(parser, place, tag)
        }
    }

    /// The body of an enumeration.
    fn enum_in_braces(
        &self,
        parser: &mut Parser<'_>,
        place: Place,
        tag: Option<Name>,
    ) -> Result<Read<Specifier>, ParseRefused>
        requires { IsNested self.now.room (E.pre self.now.expr) (E.post self.now.expr) }
        ensures { Takes parser.old result parser.new }
    {
        parser.take_within(1, self.room)?;
        let enumerators = self.enumerators(parser)?;
        parser.expect_within(Punctuator::RightBrace, enumerators.height, self.room)?;
        Ok(enumeration::enum_body(place, tag, enumerators))
    }

    /// Enumerators with commas between them.
    fn enumerators(&self, parser: &mut Parser<'_>) -> Result<Read<Items<Enumerator>>, ParseRefused>
        requires { IsNested self.now.room (E.pre self.now.expr) (E.post self.now.expr) }
        ensures { Takes parser.old result parser.new }
    {
        let mut enumerators = Read::none(self.alloc);
        self.enumerator(parser, &mut enumerators)?;
        'more: while parser.is_at(Punctuator::Comma) {
            self.next_enumerator(parser, &mut enumerators)?;
        }
        Ok(enumerators)
    }

    /// A comma, and the enumerator behind it.
    fn next_enumerator(
        &self,
        parser: &mut Parser<'_>,
        enumerators: &mut Read<Items<Enumerator>>,
    ) -> Result<(), ParseRefused>
        requires { IsNested self.now.room (E.pre self.now.expr) (E.post self.now.expr) }
        ensures { Takes parser.old result parser.new }
    {
        parser.take_within(enumerators.height, self.room)?;
        self.enumerator(parser, enumerators)
    }

    /// One enumerator. Behind it, its name stands for no type.
    fn enumerator(
        &self,
        parser: &mut Parser<'_>,
        enumerators: &mut Read<Items<Enumerator>>,
    ) -> Result<(), ParseRefused>
        requires { IsNested self.now.room (E.pre self.now.expr) (E.post self.now.expr) }
        ensures { Takes parser.old result parser.new }
    {
        let place = parser.place();
        let name = parser.take_name(self.alloc)?;
        let read = self.enumerator_of(parser, place, name)?;
        parser.names.declare(&read.node.name, false)?;
        enumerators.add(read)
    }

    /// An enumerator behind its name.
    fn enumerator_of(
        &self,
        parser: &mut Parser<'_>,
        place: Place,
        name: Name,
    ) -> Result<Read<Enumerator>, ParseRefused>
        requires { IsNested self.now.room (E.pre self.now.expr) (E.post self.now.expr) }
        ensures { MayTake parser.old result parser.new }
    {
        if !parser.is_at(Punctuator::Assign) {
            return Ok(enumeration::plain_enumerator(place, name));
        }
        parser.take_within(1, self.room)?;
        let value = self.deeper(parser, Goal::Constant)?;
        enumeration::valued_enumerator(self.alloc, place, name, value)
    }
}
