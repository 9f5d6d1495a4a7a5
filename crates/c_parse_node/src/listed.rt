//! Lists of names behind a declarator, and empty ones (C90 6.5.4.3).

ghost use Rattle.c_cursor.specs.Taking.{Takes};

use crate::part;
use c_cursor::{ParseRefused, Parser, ReadDeclarator};
use c_lexer::Punctuator;
use c_syntax::{ListedName, PartForm};
use scoped_names::Level;
use sqlite_items::Items;
use std::alloc::Global;

/// One name of an old-style definition's list. Refused as unexpected where it stands for a type.
fn listed_name(
    alloc: Global,
    parser: &mut Parser<'_>,
    names: &mut Items<ListedName>,
) -> Result<(), ParseRefused>
    ensures { Takes parser.old result parser.new }
{
    if parser.is_at_type_name() {
        return Err(parser.unexpected());
    }
    let place = parser.place();
    let name = parser.take_name(alloc)?;
    names.push(ListedName { place, name })?;
    Ok(())
}

/// The names of an old-style definition's list, with commas between them.
fn listed_names(alloc: Global, parser: &mut Parser<'_>) -> Result<Items<ListedName>, ParseRefused>
    ensures { Takes parser.old result parser.new }
{
    let mut names = Items::new(alloc);
    listed_name(alloc, parser, &mut names)?;
    'more: while parser.eat(Punctuator::Comma) {
        listed_name(alloc, parser, &mut names)?;
    }
    Ok(names)
}

/// The names behind a declarator and `(`, and the closing parenthesis. Refused as unexpected where the declarator has no name.
pub fn names(
    alloc: Global,
    parser: &mut Parser<'_>,
    inner: ReadDeclarator,
) -> Result<ReadDeclarator, ParseRefused>
    ensures { Takes parser.old result parser.new }
{
    if inner.node.name().is_none() {
        return Err(parser.unexpected());
    }
    let names = listed_names(alloc, parser)?;
    parser.expect(Punctuator::RightParenthesis)?;
    Ok(part::function(inner, PartForm::Names(names), 0, Level::empty(alloc))?)
}

/// `)` behind a declarator and `(`.
pub fn no_names(
    alloc: Global,
    parser: &mut Parser<'_>,
    inner: ReadDeclarator,
) -> Result<ReadDeclarator, ParseRefused>
    ensures { Takes parser.old result parser.new }
{
    parser.take()?;
    Ok(part::function(
        inner,
        PartForm::Names(Items::new(alloc)),
        0,
        Level::empty(alloc),
    )?)
}
