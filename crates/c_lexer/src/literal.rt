//! Character constants and string literals (C90 6.1.3.4 and 6.1.4).

ghost use Rattle.std.specs.Prelude.{◌≡◌};
ghost use Rattle.pp_token.specs.declared.token.PpKind.TheVariants as pp;
ghost use Rattle.fsc_base.specs.declared.place.Refused.TheVariants as refusals;
ghost use Rattle.c_lexer.specs.Answers.{AddsCharacters, AddsString, IsKind};
ghost use Rattle.c_lexer.specs.Lexing.{is_wide, quoted};

use crate::character::character;
use crate::token::TokenKind;
use fsc_base::{Broken, Place, Refused, Rule};

/// A rule that is broken at a place, as a refusal.
pub fn broken(rule: Rule, place: Place) -> Refused
    ensures { result ≡ refusals.Broken (record { rule = rule; place = place }) }
{
    Refused::Broken(Broken { rule, place })
}

/// Whether a literal begins with L.
fn is_wide(text: &[u8]) -> bool
    ensures { result ≡ is_wide text.now }
{
    matches!(text, [b'L', ..])
}

/// What stands between the quotes of a literal that is not wide.
fn between_quotes(text: &[u8]) -> &[u8]
    ensures { result.now ≡ quoted text.now }
{
    match text {
        [_, inner @ .., _] => inner,
        _ => &[],
    }
}

/// The character constant that is spelled so. L06 where it is wide or has several characters, K44 where it has none,
/// K45 where its escape is above 255 or without a digit.
pub fn character_constant(text: &[u8]) -> Result<TokenKind, Rule>
    ensures { IsKind pp.Char text.now result }
{
    if is_wide(text) {
        return Err(Rule::L06);
    }
    let [first, rest @ ..] = between_quotes(text) else {
        return Err(Rule::K44);
    };
    let (byte, behind) = character(*first, rest)?;
    if !behind.is_empty() {
        return Err(Rule::L06);
    }
    Ok(TokenKind::Char(u32::from(byte)))
}

/// Adds the bytes of the characters. K45 at the place where an escape is above 255 or without a digit.
fn add_characters(bytes: &mut Vec<u8>, text: &[u8], place: Place) -> Result<(), Refused>
    ensures { AddsCharacters bytes.old.items bytes.new.items text.now place result }
{
    let mut rest = text;
    while let [first, after @ ..] = rest {
        let (byte, behind) = match character(*first, after) {
            Ok(read) => read,
            Err(rule) => return Err(broken(rule, place)),
        };
        bytes.push(byte)?;
        rest = behind;
    }
    Ok(())
}

/// Adds the bytes of the string literal that is spelled so. L06 at the place where it is wide, K45 where an escape is
/// above 255 or without a digit.
pub fn add_string(bytes: &mut Vec<u8>, text: &[u8], place: Place) -> Result<(), Refused>
    ensures { AddsString bytes.old.items bytes.new.items text.now place result }
{
    if is_wide(text) {
        return Err(broken(Rule::L06, place));
    }
    add_characters(bytes, between_quotes(text), place)
}
