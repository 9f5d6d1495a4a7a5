//! External declarations (C90 6.7).

ghost use Rattle.c_cursor.specs.Taking.{Takes, MayTake};

use crate::declaration::{Declaring, declaring_behind};
use crate::function::function;
use c_cursor::{List, ParseRefused, Parser, Read, ReadDeclarator};
use c_lexer::Punctuator;
use c_parse_expr::{declarator, specifiers};
use c_parse_node::declare;
use c_syntax::{Declaration, External, InitDeclarator, Specifier};
use fsc_base::Place;
use sqlite_items::Items;
use std::alloc::Global;

/// What an external declaration begins with.
#[derive(Drop)]
struct Head {
    place: Place,
    specifiers: Items<Specifier>,
}

/// Specifiers, where some begin here.
fn read_head(alloc: Global, parser: &mut Parser<'_>, room: u32) -> Result<Head, ParseRefused>
    ensures { MayTake parser.old result parser.new }
{
    let place = parser.place();
    if !parser.begins_specifiers(List::WithStorage) {
        return Ok(Head {
            place,
            specifiers: Items::new(alloc),
        });
    }
    let read = specifiers(alloc, parser, room, List::WithStorage)?;
    Ok(Head {
        place,
        specifiers: read.node,
    })
}

/// An external declaration, with room for things in it.
pub(crate) fn external(
    alloc: Global,
    parser: &mut Parser<'_>,
    room: u32,
) -> Result<External, ParseRefused>
    ensures { Takes parser.old result parser.new }
{
    let head = read_head(alloc, parser, room)?;
    if !head.specifiers.is_empty() && parser.is_at(Punctuator::Semicolon) {
        bare(alloc, parser, head)
    } else {
        declared(alloc, parser, room, head)
    }
}

/// A declaration of specifiers alone, before its `;`.
fn bare(alloc: Global, parser: &mut Parser<'_>, head: Head) -> Result<External, ParseRefused>
    ensures { Takes parser.old result parser.new }
{
    parser.take()?;
    Ok(External::Declaration(Declaration {
        place: head.place,
        specifiers: head.specifiers,
        inits: Items::new(alloc),
    }))
}

/// Whether what has specifiers and a first declarator is a declaration.
fn is_declaration(parser: &Parser<'_>) -> bool {
    match parser.punctuator() {
        Some(Punctuator::Assign | Punctuator::Comma | Punctuator::Semicolon) => true,
        _ => false,
    }
}

/// The declarators of a declaration from the first on, which has been read and stands at that place, and the `;` behind them.
fn inits(
    declaring: Declaring,
    parser: &mut Parser<'_>,
    place: Place,
    first: ReadDeclarator,
) -> Result<Items<InitDeclarator>, ParseRefused>
    ensures { Takes parser.old result parser.new }
{
    let mut inits = Read::none(declaring.alloc);
    inits.add(declaring.initialised(parser, place, first.read())?)?;
    declaring.more_inits(parser, &mut inits)?;
    parser.expect(Punctuator::Semicolon)?;
    Ok(inits.node)
}

/// A declaration of what was read.
fn declaration(head: Head, inits: Items<InitDeclarator>) -> External {
    External::Declaration(Declaration {
        place: head.place,
        specifiers: head.specifiers,
        inits,
    })
}

/// A declaration or a function behind its specifiers, from its first declarator on, whose name is declared behind it.
fn declared(
    alloc: Global,
    parser: &mut Parser<'_>,
    room: u32,
    head: Head,
) -> Result<External, ParseRefused>
    ensures { Takes parser.old result parser.new }
{
    let declaring = declaring_behind(alloc, room, head.specifiers.as_slice());
    let place = parser.place();
    let first = declarator(alloc, parser, room, declaring.mode)?;
    declare(&mut parser.names, &first.node, declaring.is_type)?;
    if !head.specifiers.is_empty() && is_declaration(parser) {
        let inits = inits(declaring, parser, place, first)?;
        return Ok(declaration(head, inits));
    }
    let function = function(alloc, parser, room, head.place, head.specifiers, first)?;
    Ok(External::Function(function))
}
