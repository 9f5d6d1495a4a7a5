//! The name in an `#include` line (C90 6.1.7 and 6.8.2).

ghost use Rattle.std.specs.Prelude.{IfErr};
ghost use Rattle.cpp_expand.specs.Causes.{Refuses};
ghost use Rattle.cpp_text.specs.Causes.{OfText};

use crate::directive::operands;
use crate::refusal::broken;
use cpp_expand::Macros;
use fsc_base::{Name, NoMemory, Place, Refused, Rule};
use pp_token::{PpKind, PpToken, PpTokens};
use std::alloc::Global;

/// Where a file is looked for.
#[derive(Clone, Copy, Debug, PartialEq, Eq)]
pub enum Form {
    /// `"x"`
    Quoted,
    /// `<x>`
    Angled,
}

/// The name that an `#include` line gives.
#[derive(Debug, Drop)]
pub struct HeaderName {
    pub form: Form,
    pub name: Name,
}

/// The form and the characters of a header name, or None where it is none.
fn split_header(text: &[u8]) -> Option<(Form, &[u8])> {
    let (form, name, delimiter) = match text {
        [b'<', name @ .., b'>'] => (Form::Angled, name, b'>'),
        [b'"', name @ .., b'"'] => (Form::Quoted, name, b'"'),
        _ => return None,
    };
    if name.is_empty() || name.contains(&delimiter) {
        return None;
    }
    Some((form, name))
}

/// The spellings of the tokens one behind the other, with a space where white space stood between two.
fn spelled(alloc: Global, tokens: &[PpToken]) -> Result<Vec<u8>, NoMemory> {
    let mut text = Vec::new(alloc);
    for token in tokens {
        if token.spaced && !text.is_empty() {
            text.push(b' ')?;
        }
        text.extend_from_slice(token.text.as_slice())?;
    }
    Ok(text)
}

/// The header name that is spelled, or None where it is none.
fn header_name(alloc: Global, text: &[u8]) -> Result<Option<HeaderName>, NoMemory> {
    let Some((form, name)) = split_header(text) else {
        return Ok(None);
    };
    Ok(Some(HeaderName {
        form,
        name: Name::from_slice(alloc, name)?,
    }))
}

/// Copies of the tokens.
pub fn copies(alloc: Global, tokens: &[PpToken]) -> Result<PpTokens, NoMemory> {
    let mut all = Vec::new(alloc);
    for token in tokens {
        all.push(token.copy(alloc)?)?;
    }
    Ok(PpTokens::from_vec(all))
}

/// The name of an `#include` line with its `#` at `hash`. A line that is no header name alone is expanded, and what
/// comes is spelled anew. Refused by K41 where that is no header name, or as expansion is.
#[tactic(auto, using(crate::proofs::Texts::of_expand))]
pub fn included(
    alloc: Global,
    line: &[PpToken],
    macros: &Macros,
    hash: Place,
) -> Result<HeaderName, Refused>
    ensures { IfErr result (Refuses OfText) }
{
    let tokens = operands(line);
    let found = match tokens {
        [header] if header.kind == PpKind::Header => header_name(alloc, header.text.as_slice())?,
        _ => {
            let expanded = macros.expand(&copies(alloc, tokens)?, 0)?;
            header_name(alloc, &spelled(alloc, expanded.as_slice())?)?
        }
    };
    found.ok_or(broken(Rule::K41, hash))
}
