//! Parts of declarators (C90 6.5.4).

ghost use Rattle.c_cursor.specs.Taking.{Takes, MayTake};

use c_cursor::{Mode, ParseRefused, Parser, ReadDeclarator, outside};
use c_lexer::{Keyword, Punctuator};
use c_syntax::{Declarator, Part, PartForm, Pointer, Qualifier};
use fsc_base::Place;
use scoped_names::Level;
use sqlite_items::Items;
use std::alloc::{AllocError, Global};

/// A declarator of no part yet, which what follows it at that place declares nothing of.
pub fn nothing(alloc: Global, place: Place) -> ReadDeclarator {
    ReadDeclarator {
        node: Declarator {
            place,
            parts: Items::new(alloc),
        },
        height: 0,
        inside: Level::empty(alloc),
        is_bare: true,
    }
}

/// A declarator with one more part around it, at the place of the declarator, over things of that height.
fn around(
    inner: ReadDeclarator,
    form: PartForm,
    height: u32,
) -> Result<ReadDeclarator, AllocError> {
    let ReadDeclarator {
        node: Declarator { place, mut parts },
        height: inner_height,
        inside,
        is_bare,
    } = inner;
    parts.push(Part { place, form })?;
    Ok(ReadDeclarator {
        node: Declarator { place, parts },
        height: outside(inner_height, height),
        inside,
        is_bare,
    })
}

/// The same declarator, as it stands at a place before it.
fn from(place: Place, inner: ReadDeclarator) -> ReadDeclarator {
    ReadDeclarator {
        node: Declarator {
            place,
            parts: inner.node.parts,
        },
        height: inner.height,
        inside: inner.inside,
        is_bare: inner.is_bare,
    }
}

/// The same declarator, where something other than parentheses stands around its name.
fn covered(inner: ReadDeclarator) -> ReadDeclarator {
    ReadDeclarator {
        node: inner.node,
        height: inner.height,
        inside: inner.inside,
        is_bare: false,
    }
}

/// The name that a declarator declares, which comes next. Refused as unexpected where none does that may stand here.
pub fn plain(
    alloc: Global,
    parser: &mut Parser<'_>,
    mode: Mode,
) -> Result<ReadDeclarator, ParseRefused>
    ensures { Takes parser.old result parser.new }
{
    if !mode.may_name() || (parser.is_at_type_name() && !mode.may_rename()) {
        return Err(parser.unexpected());
    }
    let inner = nothing(alloc, parser.place());
    let form = PartForm::Plain(parser.take_name(alloc)?);
    Ok(around(inner, form, 0)?)
}

/// A declarator in parentheses, of which the first stands at that place.
pub fn group(place: Place, inner: ReadDeclarator) -> Result<ReadDeclarator, AllocError> {
    around(from(place, inner), PartForm::Group, 0)
}

/// Pointers, of which the first star stands at that place, around a declarator.
pub fn pointers_around(
    place: Place,
    pointers: Items<Pointer>,
    inner: ReadDeclarator,
) -> Result<ReadDeclarator, AllocError> {
    around(covered(from(place, inner)), PartForm::Pointers(pointers), 0)
}

/// An array around a declarator, its size over things of that height.
pub fn array(
    inner: ReadDeclarator,
    form: PartForm,
    height: u32,
) -> Result<ReadDeclarator, AllocError> {
    around(covered(inner), form, height)
}

/// A function around a declarator, over parameters of that height, of which the list declared these names.
pub fn function(
    inner: ReadDeclarator,
    form: PartForm,
    height: u32,
    declared: Level<bool>,
) -> Result<ReadDeclarator, AllocError> {
    if inner.is_bare {
        let node = inner.node;
        let height_inside = inner.height;
        let _ = inner.inside;
        around(
            ReadDeclarator {
                node,
                height: height_inside,
                inside: declared,
                is_bare: false,
            },
            form,
            height,
        )
    } else {
        around(inner, form, height)
    }
}

/// The qualifier that comes next, where one does.
fn qualifier(parser: &Parser<'_>) -> Option<Qualifier> {
    match parser.keyword()? {
        Keyword::Const => Some(Qualifier::Const),
        Keyword::Volatile => Some(Qualifier::Volatile),
        _ => None,
    }
}

/// Takes that qualifier.
fn take_qualifier(
    parser: &mut Parser<'_>,
    qualifier: Qualifier,
    qualifiers: &mut Items<(Qualifier, Place)>,
) -> Result<(), ParseRefused>
    ensures { Takes parser.old result parser.new }
{
    qualifiers.push((qualifier, parser.place()))?;
    parser.take()
}

/// Qualifiers, where some come.
fn qualifiers(
    alloc: Global,
    parser: &mut Parser<'_>,
) -> Result<Items<(Qualifier, Place)>, ParseRefused>
    ensures { MayTake parser.old result parser.new }
{
    let mut found = Items::new(alloc);
    'more: while let Some(next) = qualifier(parser) {
        take_qualifier(parser, next, &mut found)?;
    }
    Ok(found)
}

/// A star and the qualifiers behind it.
fn pointer(
    alloc: Global,
    parser: &mut Parser<'_>,
    pointers: &mut Items<Pointer>,
) -> Result<(), ParseRefused>
    ensures { Takes parser.old result parser.new }
{
    parser.take()?;
    let qualifiers = qualifiers(alloc, parser)?;
    pointers.push(Pointer { qualifiers })?;
    Ok(())
}

/// Stars, of which one comes next, with the qualifiers behind each.
pub fn pointers(alloc: Global, parser: &mut Parser<'_>) -> Result<Items<Pointer>, ParseRefused>
    ensures { Takes parser.old result parser.new }
{
    let mut found = Items::new(alloc);
    pointer(alloc, parser, &mut found)?;
    'more: while parser.is_at(Punctuator::Star) {
        pointer(alloc, parser, &mut found)?;
    }
    Ok(found)
}
