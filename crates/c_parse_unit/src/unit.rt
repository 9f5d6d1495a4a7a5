//! Units (C90 6.7).

ghost use Rattle.std.specs.Prelude.{IfErr};
ghost use Rattle.c_cursor.specs.Causes.{IsParseRefusal};
ghost use Rattle.c_cursor.specs.Taking.{Takes};

use crate::external::external;
use c_cursor::{MOST_NODES, ParseRefused, Parser, TypeNames};
use c_lexer::Tokens;
use c_syntax::{External, Tree};
use fsc_base::Refused;
use sqlite_items::Items;
use std::alloc::Global;

/// One external declaration. Two nodes lie above the things in it: the unit, and itself.
fn next(
    alloc: Global,
    parser: &mut Parser<'_>,
    externals: &mut Items<External>,
) -> Result<(), ParseRefused>
    ensures { Takes parser.old result parser.new }
{
    externals.push(external(alloc, parser, MOST_NODES - 2)?)?;
    Ok(())
}

/// External declarations up to the end, one at least.
fn externals(alloc: Global, parser: &mut Parser<'_>) -> Result<Items<External>, ParseRefused>
    ensures { Takes parser.old result parser.new }
{
    let mut externals = Items::new(alloc);
    next(alloc, parser, &mut externals)?;
    'more: while !parser.is_at_end() {
        next(alloc, parser, &mut externals)?;
    }
    Ok(externals)
}

/// Reads the tokens of a unit, of which the last is End, as its tree (C90 6.7). Refused with K01 at the first token with which no
/// derivable list of tokens goes on, with L03 at a token with which only trees go on that have more than 256 nodes one above the
/// other, and for want of memory.
pub fn parse(alloc: Global, tokens: &Tokens) -> Result<Tree, Refused>
    ensures { IfErr result IsParseRefusal }
{
    let mut parser = Parser::new(tokens.as_slice(), TypeNames::new(alloc));
    match externals(alloc, &mut parser) {
        Ok(externals) => Ok(Tree { externals }),
        Err(refused) => Err(refused.refused()),
    }
}
