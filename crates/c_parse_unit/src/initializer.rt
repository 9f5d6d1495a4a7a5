//! Initialisers (C90 6.5.7).

ghost use Rattle.std.specs.Prelude.{◌≡◌, ◌<◌, ◌≤◌, length, true};
ghost use Rattle.c_cursor.specs.Taking.{Takes, MayTake};
ghost use Rattle.c_parse_unit.specs.Nesting.{IsDeeper};

use crate::node;
use c_cursor::{Goal, ParseRefused, Parser, Read};
use c_lexer::Punctuator;
use c_parse_expr::expr;
use c_syntax::Initializer;
use sqlite_items::Items;
use std::alloc::Global;

/// The productions of an initialiser, where so many nodes may still lie below the one that is read.
#[derive(Clone, Copy)]
pub(crate) struct Initializers<I> {
    pub(crate) alloc: Global,
    pub(crate) room: u32,
    /// Reads an initialiser.
    pub(crate) initializer: I,
}

/// Reads an initialiser, where so many nodes may still lie one above the other.
pub(crate) fn initializer(
    alloc: Global,
    parser: &mut Parser<'_>,
    room: u32,
) -> Result<Read<Initializer>, ParseRefused>
    ensures { Takes parser.old result parser.new }
{
    if !parser.is_at(Punctuator::LeftBrace) {
        return single(alloc, parser, room);
    }
    if room == 0 {
        return Err(parser.too_deep());
    }
    Initializers {
        alloc,
        room: room - 1,
        initializer,
    }
    .in_braces(parser)
}

/// An initialiser that is one expression.
pub(crate) fn single(
    alloc: Global,
    parser: &mut Parser<'_>,
    room: u32,
) -> Result<Read<Initializer>, ParseRefused>
    ensures { Takes parser.old result parser.new }
{
    let place = parser.place();
    let value = expr(alloc, parser, room, Goal::Assign)?;
    Ok(node::one(place, value))
}

/// Takes a comma, where one comes. Answers whether one came and an item is to follow: a comma may stand before the closing brace.
fn goes_on(parser: &mut Parser<'_>) -> bool
    ensures never_more { length parser.new.rest.now ≤ length parser.old.rest.now }
    ensures takes { result ≡ true → length parser.new.rest.now < length parser.old.rest.now }
{
    parser.eat(Punctuator::Comma) && !parser.is_at(Punctuator::RightBrace)
}

impl<I: Fn(Global, &mut Parser<'_>, u32) -> Result<Read<Initializer>, ParseRefused>> Initializers<
    I,
> {
    /// Initialisers in braces.
    pub(crate) fn in_braces(
        &self,
        parser: &mut Parser<'_>,
    ) -> Result<Read<Initializer>, ParseRefused>
        requires { IsDeeper self.now.room (I.pre self.now.initializer) (I.post self.now.initializer) }
        ensures { Takes parser.old result parser.new }
    {
        let place = parser.place();
        parser.take_within(1, self.room)?;
        let items = self.items(parser)?;
        parser.expect(Punctuator::RightBrace)?;
        Ok(node::many(place, items))
    }

    /// Initialisers with commas between them, and perhaps behind them; one at least.
    fn items(&self, parser: &mut Parser<'_>) -> Result<Read<Items<Initializer>>, ParseRefused>
        requires { IsDeeper self.now.room (I.pre self.now.initializer) (I.post self.now.initializer) }
        ensures { Takes parser.old result parser.new }
    {
        let mut items = Read::none(self.alloc);
        self.item(parser, &mut items)?;
        'more: while goes_on(parser) {
            self.item(parser, &mut items)?;
        }
        Ok(items)
    }

    /// One initialiser.
    fn item(
        &self,
        parser: &mut Parser<'_>,
        items: &mut Read<Items<Initializer>>,
    ) -> Result<(), ParseRefused>
        requires { IsDeeper self.now.room (I.pre self.now.initializer) (I.post self.now.initializer) }
        ensures { Takes parser.old result parser.new }
    {
        items.add((self.initializer)(self.alloc, parser, self.room)?)
    }
}
