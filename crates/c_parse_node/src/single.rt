//! Expressions that are one token (C90 6.3.1).

ghost use Rattle.c_cursor.specs.Taking.{Takes};

use crate::node;
use c_cursor::{ParseRefused, Parser, Read};
use c_lexer::TokenKind;
use c_syntax::{Expr, ExprForm};
use fsc_base::{Bytes, Name};
use std::alloc::Global;

/// The expression that a name is, which must not stand for a type.
fn named(alloc: Global, parser: &Parser<'_>, name: &Name) -> Result<ExprForm, ParseRefused> {
    if parser.names.is_type(name) {
        return Err(parser.unexpected());
    }
    Ok(ExprForm::Name(Bytes::from_slice(alloc, name.as_slice())?))
}

/// The expression that the next token is by itself. Refused as unexpected where it is none.
fn token_form(alloc: Global, parser: &Parser<'_>) -> Result<ExprForm, ParseRefused> {
    match parser.rest {
        [token, ..] => match &token.kind {
            TokenKind::Name(name) => named(alloc, parser, name),
            TokenKind::Int(value, kind) => Ok(ExprForm::Integer(*value, *kind)),
            TokenKind::Char(value) => Ok(ExprForm::Character(*value)),
            TokenKind::Str(bytes) => Ok(ExprForm::Text(Bytes::from_slice(
                alloc,
                bytes.as_slice(),
            )?)),
            _ => Err(parser.unexpected()),
        },
        [] => Err(parser.unexpected()),
    }
}

/// A name, a constant or a string literal.
pub fn token(alloc: Global, parser: &mut Parser<'_>) -> Result<Read<Expr>, ParseRefused>
    ensures { Takes parser.old result parser.new }
{
    let place = parser.place();
    let form = token_form(alloc, parser)?;
    parser.take()?;
    Ok(node::leaf(place, form))
}
