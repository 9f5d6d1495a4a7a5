//! Declarations (C90 6.5).

ghost use Rattle.c_cursor.specs.Taking.{Takes, MayTake};

use crate::initializer::initializer;
use crate::node;
use c_cursor::{List, Mode, ParseRefused, Parser, Read};
use c_lexer::Punctuator;
use c_parse_expr::{declarator, specifiers};
use c_parse_node::{declare, has_type, is_typedef};
use c_syntax::{Declaration, Declarator, InitDeclarator, Specifier};
use fsc_base::Place;
use sqlite_items::Items;
use std::alloc::Global;

/// How declarators are read behind specifiers.
#[derive(Clone, Copy)]
pub(crate) struct Declaring {
    pub(crate) alloc: Global,
    /// The room for things in the declaration.
    pub(crate) room: u32,
    pub(crate) mode: Mode,
    /// Whether they declare types.
    pub(crate) is_type: bool,
}

/// How declarators are read behind these specifiers.
pub(crate) fn declaring_behind(alloc: Global, room: u32, specifiers: &[Specifier]) -> Declaring {
    Declaring {
        alloc,
        room,
        mode: Mode::Named {
            may_rename: has_type(specifiers),
        },
        is_type: is_typedef(specifiers),
    }
}

/// Reads a declaration, which begins with the next token, where so many nodes may still lie one above the other.
pub(crate) fn declaration(
    alloc: Global,
    parser: &mut Parser<'_>,
    room: u32,
) -> Result<Read<Declaration>, ParseRefused>
    ensures { Takes parser.old result parser.new }
{
    if room == 0 {
        return Err(parser.too_deep());
    }
    let place = parser.place();
    let list = specifiers(alloc, parser, room - 1, List::WithStorage)?;
    let declaring = declaring_behind(alloc, room - 1, list.node.as_slice());
    let inits = declaring.inits(parser)?;
    parser.expect(Punctuator::Semicolon)?;
    Ok(node::declaration(place, list, inits))
}

impl Declaring {
    /// Declarators with initialisers and with commas between them, or none before `;`.
    fn inits(&self, parser: &mut Parser<'_>) -> Result<Read<Items<InitDeclarator>>, ParseRefused>
        ensures { MayTake parser.old result parser.new }
    {
        let mut inits = Read::none(self.alloc);
        if parser.is_at(Punctuator::Semicolon) {
            return Ok(inits);
        }
        self.init(parser, &mut inits)?;
        self.more_inits(parser, &mut inits)?;
        Ok(inits)
    }

    /// Commas, and a declarator with its initialiser behind each.
    pub(crate) fn more_inits(
        &self,
        parser: &mut Parser<'_>,
        inits: &mut Read<Items<InitDeclarator>>,
    ) -> Result<(), ParseRefused>
        ensures { MayTake parser.old result parser.new }
    {
        'more: while parser.eat(Punctuator::Comma) {
            self.init(parser, inits)?;
        }
        Ok(())
    }

    /// A declarator, whose name is declared behind it, and its initialiser.
    fn init(
        &self,
        parser: &mut Parser<'_>,
        inits: &mut Read<Items<InitDeclarator>>,
    ) -> Result<(), ParseRefused>
        ensures { Takes parser.old result parser.new }
    {
        let place = parser.place();
        let read = declarator(self.alloc, parser, self.room, self.mode)?.read();
        declare(&mut parser.names, &read.node, self.is_type)?;
        inits.add(self.initialised(parser, place, read)?)
    }

    /// A declarator with the initialiser behind it, where one stands.
    pub(crate) fn initialised(
        &self,
        parser: &mut Parser<'_>,
        place: Place,
        declarator: Read<Declarator>,
    ) -> Result<Read<InitDeclarator>, ParseRefused>
        ensures { MayTake parser.old result parser.new }
    {
        if !parser.is_at(Punctuator::Assign) {
            return Ok(node::uninitialised(place, declarator));
        }
        let room = self.room.saturating_sub(1);
        parser.take_within(declarator.height.max(1), room)?;
        let initial = initializer(self.alloc, parser, room)?;
        Ok(node::initialised(place, declarator, initial))
    }
}
