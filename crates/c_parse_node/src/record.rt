//! Structs, unions and their members (C90 6.5.2.1).

use c_cursor::{ParseRefused, Parser, Read, outside};
use c_syntax::{Declarator, Expr, Field, FieldDeclarator, RecordKind, Specifier, SpecifierForm};
use fsc_base::{Name, Place};
use sqlite_items::{Boxed, Items};
use std::alloc::Global;

/// `struct s`, `union u`. Refused as unexpected, at the next token, where there is no tag.
pub fn record_tag(
    parser: &Parser<'_>,
    place: Place,
    kind: RecordKind,
    tag: Option<Name>,
) -> Result<Read<Specifier>, ParseRefused> {
    let Some(tag) = tag else {
        return Err(parser.unexpected());
    };
    Ok(Read {
        node: Specifier {
            place,
            form: SpecifierForm::RecordTag(kind, tag),
        },
        height: 1,
    })
}

/// A struct or union with members.
pub fn record_body(
    place: Place,
    kind: RecordKind,
    tag: Option<Name>,
    fields: Read<Items<Field>>,
) -> Read<Specifier> {
    Read {
        node: Specifier {
            place,
            form: SpecifierForm::RecordBody(kind, tag, fields.node),
        },
        height: outside(fields.height, 0),
    }
}

/// A declaration of members, of specifiers and of declarators that were added to them.
pub fn field(
    place: Place,
    specifiers: Items<Specifier>,
    declarators: Read<Items<FieldDeclarator>>,
) -> Read<Field> {
    Read {
        node: Field {
            place,
            specifiers,
            declarators: declarators.node,
        },
        height: outside(declarators.height, 0),
    }
}

/// A member of a declarator alone.
pub fn member(place: Place, declarator: Read<Declarator>) -> Read<FieldDeclarator> {
    Read {
        node: FieldDeclarator {
            place,
            declarator: Some(declarator.node),
            width: None,
        },
        height: declarator.height,
    }
}

/// A bit-field.
pub fn bit_field(
    alloc: Global,
    place: Place,
    declarator: Option<Declarator>,
    height: u32,
    width: Read<Expr>,
) -> Result<Read<FieldDeclarator>, ParseRefused> {
    let bits = Boxed::new(alloc, width.node)?;
    Ok(Read {
        node: FieldDeclarator {
            place,
            declarator,
            width: Some(bits),
        },
        height: outside(height, width.height),
    })
}
