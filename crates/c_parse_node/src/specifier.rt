//! Specifiers that are one token, and what a list of them has (C90 6.5).

ghost use Rattle.c_cursor.specs.Taking.{Takes};

use c_cursor::{ParseRefused, Parser, Read};
use c_syntax::{Specifier, SpecifierForm, Storage};
use std::alloc::Global;

/// Whether a list has a type specifier.
pub fn has_type(specifiers: &[Specifier]) -> bool {
    specifiers.iter().any(|specifier| is_type(&specifier.form))
}

fn is_type(form: &SpecifierForm) -> bool {
    match form {
        SpecifierForm::Storage(_) | SpecifierForm::Qualifier(_) => false,
        _ => true,
    }
}

/// Whether a list declares names as types: it has `typedef`.
pub fn is_typedef(specifiers: &[Specifier]) -> bool {
    specifiers
        .iter()
        .any(|specifier| is_typedef_word(&specifier.form))
}

fn is_typedef_word(form: &SpecifierForm) -> bool {
    match form {
        SpecifierForm::Storage(Storage::Typedef) => true,
        _ => false,
    }
}

/// A specifier that is the next token alone.
pub fn word(parser: &mut Parser<'_>, form: SpecifierForm) -> Result<Read<Specifier>, ParseRefused>
    ensures { Takes parser.old result parser.new }
{
    let place = parser.place();
    parser.take()?;
    Ok(Read {
        node: Specifier { place, form },
        height: 1,
    })
}

/// A specifier that is a name which stands for a type.
pub fn alias(alloc: Global, parser: &mut Parser<'_>) -> Result<Read<Specifier>, ParseRefused>
    ensures { Takes parser.old result parser.new }
{
    let place = parser.place();
    let form = SpecifierForm::Alias(parser.take_name(alloc)?);
    Ok(Read {
        node: Specifier { place, form },
        height: 1,
    })
}
