//! One expression among tokens.

ghost use Rattle.std.specs.Prelude.{◌≡◌, ◌<◌, ◌≤◌, length, IfErr, IfOk};
ghost use Rattle.c_cursor.specs.Causes.{IsParseRefusal};
ghost use Rattle.c_cursor.specs.Taking.{Takes};

use crate::grammar::expr;
use c_cursor::{Goal, MOST_NODES, Parser, TypeNames};
use c_lexer::{Token, Tokens};
use c_syntax::Expr;
use fsc_base::Refused;
use std::alloc::Global;

/// Which expression is read.
#[derive(Clone, Copy, Debug, PartialEq, Eq)]
pub enum Production {
    /// With commas (C90 6.3.17).
    Expr,
    /// An assignment expression (C90 6.3.16).
    Assign,
    /// A constant expression, which is a conditional one (C90 6.4).
    Constant,
}

/// The tokens from one on; none, where there are no more than that.
fn tokens_from(tokens: &[Token], at: usize) -> &[Token]
    ensures { length result.now ≤ length tokens.now }
{
    if at <= tokens.len() {
        &tokens[at..]
    } else {
        &tokens[tokens.len()..]
    }
}

impl Production {
    fn goal(self) -> Goal {
        match self {
            Production::Expr => Goal::Expr,
            Production::Assign => Goal::Assign,
            Production::Constant => Goal::Constant,
        }
    }
}

/// Reads an expression from tokens, of which the last is End, from the one with that index on, where the names that stand for
/// types are those. It takes the most tokens that some expression of the production begins with, and answers the expression and
/// the index of the token behind it (C90 6.3). Refused with K01 at the token behind these where they are no such expression, with
/// L03 where more than 256 nodes lie one above the other, `depth` of them above the expression, and for want of memory.
/// In `names` each enumerator that the expression declares outside a list of parameters hides a type of that name. After a refusal
/// `names` has lost what it knew.
pub fn parse_expr(
    alloc: Global,
    tokens: &Tokens,
    at: usize,
    what: Production,
    depth: u32,
    names: &mut TypeNames,
) -> Result<(Expr, usize), Refused>
    ensures { IfErr result IsParseRefusal }
{
    let rest = tokens_from(tokens.as_slice(), at);
    let visible = std::mem::replace(names, TypeNames::new(alloc));
    let mut parser = Parser::new(rest, visible);
    let room = MOST_NODES.saturating_sub(depth);
    match expr(alloc, &mut parser, room, what.goal()) {
        Ok(read) => {
            let left = parser.rest.len();
            *names = parser.names;
            Ok((read.node, tokens.as_slice().len() - left))
        }
        Err(refused) => Err(refused.refused()),
    }
}
