//! Definitions of functions (C90 6.7.1).

ghost use Rattle.c_cursor.specs.Taking.{Takes, MayTake};

use crate::block::next_declaration;
use crate::statement::{Statements, statement};
use c_cursor::{List, ParseRefused, Parser, Read, ReadDeclarator};
use c_lexer::Punctuator;
use c_syntax::{Compound, Declaration, Function, Specifier, Statement};
use fsc_base::Place;
use sqlite_items::Items;
use std::alloc::Global;

/// Declarations of the parameters of an old-style definition, as many as stand before its body.
fn parameter_declarations(
    alloc: Global,
    parser: &mut Parser<'_>,
    room: u32,
) -> Result<Items<Declaration>, ParseRefused>
    ensures { MayTake parser.old result parser.new }
{
    let mut declarations = Read::none(alloc);
    'more: while parser.begins_specifiers(List::WithStorage) {
        next_declaration(alloc, parser, room, &mut declarations)?;
    }
    Ok(declarations.node)
}

/// The body of a function, where so many nodes may still lie one above the other.
fn body(
    alloc: Global,
    parser: &mut Parser<'_>,
    room: u32,
) -> Result<Compound<Statement>, ParseRefused>
    ensures { Takes parser.old result parser.new }
{
    let statements = Statements {
        alloc,
        room: room.saturating_sub(1),
        statement,
    };
    Ok(statements.braces(parser)?.node)
}

/// Whether the definition of a function goes on here, behind its declarator.
fn goes_on(parser: &Parser<'_>) -> bool {
    parser.is_at(Punctuator::LeftBrace) || parser.begins_specifiers(List::WithStorage)
}

/// What follows the declarator of a function's definition, with room for things in it. The scope of its list of parameters is
/// opened again for it.
pub(crate) fn function(
    alloc: Global,
    parser: &mut Parser<'_>,
    room: u32,
    place: Place,
    specifiers: Items<Specifier>,
    declared: ReadDeclarator,
) -> Result<Function, ParseRefused>
    ensures { Takes parser.old result parser.new }
{
    parser.names.enter_with(declared.inside)?;
    if !goes_on(parser) {
        return Err(parser.unexpected());
    }
    let declarations = parameter_declarations(alloc, parser, room)?;
    let body = body(alloc, parser, room)?;
    parser.names.leave();
    Ok(Function {
        place,
        specifiers,
        declarator: declared.node,
        declarations,
        body,
    })
}
