//! Tags and enumerations (C90 6.5.2.2, 6.5.2.3).

ghost use Rattle.c_cursor.specs.Taking.{MayTake};

use c_cursor::{ParseRefused, Parser, Read, outside};
use c_lexer::Punctuator;
use c_syntax::{Enumerator, Expr, Specifier, SpecifierForm};
use fsc_base::{Name, Place};
use sqlite_items::{Boxed, Items};
use std::alloc::Global;

/// A tag, or none before a body. Refused as unexpected where neither comes.
pub fn tag(alloc: Global, parser: &mut Parser<'_>) -> Result<Option<Name>, ParseRefused>
    ensures { MayTake parser.old result parser.new }
{
    if parser.is_at(Punctuator::LeftBrace) {
        return Ok(None);
    }
    Ok(Some(parser.take_name(alloc)?))
}

/// `enum e`. Refused as unexpected, at the next token, where there is no tag.
pub fn enum_tag(
    parser: &Parser<'_>,
    place: Place,
    tag: Option<Name>,
) -> Result<Read<Specifier>, ParseRefused> {
    let Some(tag) = tag else {
        return Err(parser.unexpected());
    };
    Ok(Read {
        node: Specifier {
            place,
            form: SpecifierForm::EnumTag(tag),
        },
        height: 1,
    })
}

/// An enumeration with enumerators.
pub fn enum_body(
    place: Place,
    tag: Option<Name>,
    enumerators: Read<Items<Enumerator>>,
) -> Read<Specifier> {
    Read {
        node: Specifier {
            place,
            form: SpecifierForm::EnumBody(tag, enumerators.node),
        },
        height: outside(enumerators.height, 0),
    }
}

/// An enumerator without a value.
pub fn plain_enumerator(place: Place, name: Name) -> Read<Enumerator> {
    Read {
        node: Enumerator {
            place,
            name,
            value: None,
        },
        height: 1,
    }
}

/// An enumerator with a value.
pub fn valued_enumerator(
    alloc: Global,
    place: Place,
    name: Name,
    value: Read<Expr>,
) -> Result<Read<Enumerator>, ParseRefused> {
    let given = Boxed::new(alloc, value.node)?;
    Ok(Read {
        node: Enumerator {
            place,
            name,
            value: Some(given),
        },
        height: outside(value.height, 0),
    })
}
