//! `#define` and `#undef` lines (C90 6.8.3).

ghost use Rattle.std.specs.Prelude.{◌≡◌};
ghost use Rattle.fsc_base.specs.declared.place.Refused.TheVariants as refusals;
ghost use Rattle.cpp_expand.specs.Causes.{place_of_line};

use crate::definition::{Function, Macro, Parameters, Uses};
use crate::replacement::replacement_list;
use fsc_base::{Broken, NoMemory, Place, Refused, Rule};
use indexmap::IndexMap;
use pp_token::{PpKind, PpToken};
use std::alloc::Global;

/// Whether it is the operator or punctuator of this spelling.
pub fn is_punct(token: &PpToken, spelling: &[u8]) -> bool {
    token.kind == PpKind::Punct && token.text.as_slice() == spelling
}

/// Whether it is the identifier of this spelling.
fn is_word(token: &PpToken, word: &[u8]) -> bool {
    token.kind == PpKind::Name && token.text.as_slice() == word
}

/// The tokens of a line without its end.
pub fn content(line: &[PpToken]) -> &[PpToken] {
    let count = line
        .iter()
        .take_while(|token| token.kind != PpKind::LineEnd && token.kind != PpKind::End)
        .count();
    &line[..count]
}

/// The place of a line's `#`, which is its first token.
fn place_of(line: &[PpToken]) -> Place
    ensures { result ≡ place_of_line line.now }
{
    match line {
        [hash, ..] => hash.place,
        [] => Place {
            unit: 0,
            file: 0,
            line: 0,
        },
    }
}

/// A line that breaks a rule: its `#` is the place.
pub fn broken(rule: Rule, line: &[PpToken]) -> Refused
    ensures { result ≡ refusals.Broken (record { rule = rule; place = place_of_line line.now }) }
{
    Refused::Broken(Broken {
        rule,
        place: place_of(line),
    })
}

/// The name that a line with this word is about, and the tokens behind it. None where the line has another form.
pub fn subject<'l>(line: &'l [PpToken], word: &[u8]) -> Option<(&'l [u8], &'l [PpToken])> {
    match content(line) {
        [hash, directive, name, rest @ ..] if is_punct(hash, b"#") && is_word(directive, word) => {
            if name.kind == PpKind::Name {
                Some((name.text.as_slice(), rest))
            } else {
                None
            }
        }
        _ => None,
    }
}

/// Whether a macro's parameters follow: a left parenthesis without white space in front.
fn has_parameters(rest: &[PpToken]) -> bool {
    match rest {
        [mark, ..] => is_punct(mark, b"(") && !mark.spaced,
        [] => false,
    }
}

/// Adds a parameter. False where there is one of this name.
fn add_parameter(
    alloc: Global,
    parameters: &mut Parameters,
    name: &[u8],
) -> Result<bool, NoMemory> {
    if parameters.contains_key(name) {
        return Ok(false);
    }
    let unused = Uses {
        raw: false,
        expanded: false,
    };
    parameters.insert(Vec::from_slice(alloc, name)?, unused)?;
    Ok(true)
}

/// The parameters from a list of identifiers on, up to the right parenthesis, and the tokens behind it. None where
/// they are malformed.
fn parameter_list(
    alloc: Global,
    inside: &[PpToken],
) -> Result<Option<(Parameters, &[PpToken])>, NoMemory> {
    let mut parameters = IndexMap::new(alloc);
    let mut rest = inside;
    while let [name, mark, behind @ ..] = rest {
        if name.kind != PpKind::Name
            || !add_parameter(alloc, &mut parameters, name.text.as_slice())?
        {
            return Ok(None);
        }
        if is_punct(mark, b")") {
            return Ok(Some((parameters, behind)));
        }
        if !is_punct(mark, b",") {
            return Ok(None);
        }
        rest = behind;
    }
    Ok(None)
}

/// The parameters behind the left parenthesis, maybe none, and the tokens behind the right one.
fn parameters(
    alloc: Global,
    inside: &[PpToken],
) -> Result<Option<(Parameters, &[PpToken])>, NoMemory> {
    match inside {
        [close, body @ ..] if is_punct(close, b")") => Ok(Some((IndexMap::new(alloc), body))),
        _ => parameter_list(alloc, inside),
    }
}

/// The function-like macro that a list behind its left parenthesis describes. None where it is malformed.
fn function(alloc: Global, inside: &[PpToken]) -> Result<Option<Function>, NoMemory> {
    let Some((mut parameters, body)) = parameters(alloc, inside)? else {
        return Ok(None);
    };
    let Some(body) = replacement_list(alloc, true, &mut parameters, body)? else {
        return Ok(None);
    };
    Ok(Some(Function { parameters, body }))
}

/// The macro that the tokens behind its name describe. None where they are malformed.
pub fn described(alloc: Global, rest: &[PpToken]) -> Result<Option<Macro>, NoMemory> {
    if let [_, inside @ ..] = rest
        && has_parameters(rest)
    {
        return Ok(function(alloc, inside)?.map(Macro::FunctionLike));
    }
    Ok(replacement_list(alloc, false, &mut IndexMap::new(alloc), rest)?.map(Macro::ObjectLike))
}
