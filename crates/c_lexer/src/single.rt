//! Preprocessing tokens that become one token each.

ghost use Rattle.std.specs.Prelude.{◌≡◌, None, IfOk};
ghost use Rattle.pp_token.specs.declared.token.PpKind.TheVariants as pp;
ghost use Rattle.c_lexer.specs.Answers.{Becomes, IsKind, IsSingle, located};
ghost use Rattle.c_lexer.specs.Lexing.{Breaks, kind_of};
ghost use Rattle.c_lexer.specs.Numbers.{integer_of};

use crate::floating::is_floating_constant;
use crate::integer::{candidates, digits_number, first_fitting, read_integer};
use crate::keyword::read_keyword;
use crate::literal::{broken, character_constant};
use crate::punctuator::read_punctuator;
use crate::token::{BasicType, TokenKind};
use fsc_base::{Name, NoMemory, Place, Refused, Rule};
use pp_token::PpKind;
use std::alloc::Global;

/// The keyword or else the name that is spelled so. Refused only for want of memory.
fn name(alloc: Global, text: &[u8]) -> Result<TokenKind, NoMemory>
    ensures { IfOk result (λ kind. kind ≡ kind_of pp.Name text.now) }
{
    match read_keyword(text) {
        Some(keyword) => Ok(TokenKind::Keyword(keyword)),
        None => Ok(TokenKind::Name(Name::from_slice(alloc, text)?)),
    }
}

/// The integer constant that is spelled so. L04 where it is above 2^32 - 1, L01 where it is a floating constant, K44
/// where it is neither.
pub fn number(text: &[u8]) -> Result<TokenKind, Rule>
    ensures { IsKind pp.Number text.now result }
{
    let Some(constant) = read_integer(text) else {
        return Err(no_integer(text));
    };
    let Some(value) = digits_number(constant.radix.base(), constant.digits) else {
        return Err(Rule::L04);
    };
    let basic = first_fitting(value, candidates(constant.radix, constant.suffix));
    Ok(TokenKind::Int(value, basic.unwrap_or(BasicType::UnsignedLong)))
}

/// The rule that a number breaks which is no integer constant.
fn no_integer(text: &[u8]) -> Rule
    requires { integer_of text.now ≡ None }
    ensures { Breaks result pp.Number text.now }
{
    if is_floating_constant(text) {
        Rule::L01
    } else {
        Rule::K44
    }
}

/// The operator or punctuator that is spelled so. K44 where there is none, as for `#` and `##`.
fn punctuator(text: &[u8]) -> Result<TokenKind, Rule>
    ensures { IsKind pp.Punct text.now result }
{
    match read_punctuator(text) {
        Some(punctuator) => Ok(TokenKind::Punct(punctuator)),
        None => Err(Rule::K44),
    }
}

/// The same, with the broken rule at its place.
fn located(made: Result<TokenKind, Rule>, place: Place) -> Result<TokenKind, Refused>
    ensures { result ≡ located place made }
{
    match made {
        Ok(kind) => Ok(kind),
        Err(rule) => Err(broken(rule, place)),
    }
}

/// What a preprocessing token becomes that is neither a string nor the end of a line. Refused where it breaks one of
/// the rules K44, K45, L01, L04 and L06, at its place, and for want of memory.
pub fn single_kind(
    alloc: Global,
    kind: PpKind,
    text: &[u8],
    place: Place,
) -> Result<TokenKind, Refused>
    requires { IsSingle kind }
    ensures { Becomes kind text.now place result }
{
    match kind {
        PpKind::Name => Ok(name(alloc, text)?),
        PpKind::Number => located(number(text), place),
        PpKind::Char => located(character_constant(text), place),
        PpKind::Punct => located(punctuator(text), place),
        PpKind::End => Ok(TokenKind::End),
        PpKind::Header | PpKind::Other => Err(broken(Rule::K44, place)),
        PpKind::Str | PpKind::LineEnd => unreachable!(),
    }
}
