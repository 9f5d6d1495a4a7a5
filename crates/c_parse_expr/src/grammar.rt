//! The knot: each production is a method over three function values, which read what lies one node deeper.

ghost use Rattle.c_cursor.specs.Taking.{Takes, IsNested};

use c_cursor::{Goal, List, Mode, ParseRefused, Parser, Read, ReadDeclarator};
use c_syntax::{Expr, Specifier};
use sqlite_items::Items;
use std::alloc::Global;

/// The productions, where so many nodes may still lie below the one that is read.
#[derive(Clone, Copy)]
pub struct Grammar<E, S, D> {
    pub alloc: Global,
    pub room: u32,
    /// Reads an expression.
    pub expr: E,
    /// Reads a list of specifiers.
    pub specifiers: S,
    /// Reads a declarator.
    pub declarator: D,
}

/// Reads an expression, where so many nodes may still lie one above the other (C90 6.3). Refused as unexpected or too deep, at
/// the token that the text breaks there, and for want of memory.
#[cycle(knot)]
pub fn expr(
    alloc: Global,
    parser: &mut Parser<'_>,
    room: u32,
    goal: Goal,
) -> Result<Read<Expr>, ParseRefused>
    ensures { Takes parser.old result parser.new }
{
    if room == 0 {
        return Err(parser.no_room_for_expression());
    }
    Grammar {
        alloc,
        room: room - 1,
        expr,
        specifiers,
        declarator,
    }
    .goal(parser, goal)
}

/// Reads specifiers, one at least, where so many nodes may still lie one above the other (C90 6.5). Refused as `expr` is.
#[cycle(knot)]
pub fn specifiers(
    alloc: Global,
    parser: &mut Parser<'_>,
    room: u32,
    list: List,
) -> Result<Read<Items<Specifier>>, ParseRefused>
    ensures { Takes parser.old result parser.new }
{
    if room == 0 {
        return Err(parser.no_room_for_specifiers(list));
    }
    Grammar {
        alloc,
        room: room - 1,
        expr,
        specifiers,
        declarator,
    }
    .list(parser, list)
}

/// Reads a declarator, where so many nodes may still lie one above the other (C90 6.5.4, 6.5.5). Refused as `expr` is.
#[cycle(knot)]
pub fn declarator(
    alloc: Global,
    parser: &mut Parser<'_>,
    room: u32,
    mode: Mode,
) -> Result<ReadDeclarator, ParseRefused>
    ensures { Takes parser.old result parser.new }
{
    if room == 0 {
        return Err(parser.no_room_for_declarator(mode));
    }
    Grammar {
        alloc,
        room: room - 1,
        expr,
        specifiers,
        declarator,
    }
    .pointed(parser, mode)
}

impl<
    E: Fn(Global, &mut Parser<'_>, u32, Goal) -> Result<Read<Expr>, ParseRefused>,
    S: Fn(Global, &mut Parser<'_>, u32, List) -> Result<Read<Items<Specifier>>, ParseRefused>,
    D: Fn(Global, &mut Parser<'_>, u32, Mode) -> Result<ReadDeclarator, ParseRefused>,
> Grammar<E, S, D> {
    /// An expression one node deeper.
    pub(crate) fn deeper(
        &self,
        parser: &mut Parser<'_>,
        goal: Goal,
    ) -> Result<Read<Expr>, ParseRefused>
        requires { IsNested self.now.room (E.pre self.now.expr) (E.post self.now.expr) }
        ensures { Takes parser.old result parser.new }
    {
        (self.expr)(self.alloc, parser, self.room, goal)
    }

    /// Specifiers one node deeper.
    pub(crate) fn deeper_specifiers(
        &self,
        parser: &mut Parser<'_>,
        list: List,
    ) -> Result<Read<Items<Specifier>>, ParseRefused>
        requires { IsNested self.now.room (S.pre self.now.specifiers) (S.post self.now.specifiers) }
        ensures { Takes parser.old result parser.new }
    {
        (self.specifiers)(self.alloc, parser, self.room, list)
    }

    /// A declarator one node deeper.
    pub(crate) fn deeper_declarator(
        &self,
        parser: &mut Parser<'_>,
        mode: Mode,
    ) -> Result<ReadDeclarator, ParseRefused>
        requires { IsNested self.now.room (D.pre self.now.declarator) (D.post self.now.declarator) }
        ensures { Takes parser.old result parser.new }
    {
        (self.declarator)(self.alloc, parser, self.room, mode)
    }
}
