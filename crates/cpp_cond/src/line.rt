//! Lines of a condition.

ghost use Rattle.std.specs.Prelude.{◌≤◌, length, IfSome, IfErr};
ghost use Rattle.cpp_cond.specs.Causes.{OfTerm, OfCondition};
ghost use Rattle.cpp_expand.specs.Causes.{Refuses};

use crate::evaluation::evaluate;
use crate::term::no_expression;
use cpp_expand::Macros;
use fsc_base::{Bytes, Name, NoMemory, Place, Refused};
use pp_token::{HideSet, PpKind, PpToken, PpTokens};
use std::alloc::Global;

/// Whether it is the name or punctuator with that spelling.
fn is_spelled(token: &PpToken, kind: PpKind, text: &[u8]) -> bool {
    token.kind == kind && token.text.as_slice() == text
}

/// The tokens up to the end of their line.
fn within_line(tokens: &[PpToken]) -> &[PpToken] {
    let end = tokens.iter().position(|token| matches!(token.kind, PpKind::LineEnd | PpKind::End));
    match end {
        Some(end) => &tokens[..end],
        None => tokens,
    }
}

/// The constant that stands for `defined X`, at the place of that `defined`.
fn truth(alloc: Global, defined: &PpToken, is_true: bool) -> Result<PpToken, NoMemory> {
    let text = if is_true { b"1" } else { b"0" };
    Ok(PpToken {
        kind: PpKind::Number,
        text: Bytes::from_slice(alloc, text)?,
        place: defined.place,
        spaced: defined.spaced,
        hide: HideSet::new(alloc),
    })
}

/// The name behind a `defined`, alone or in parentheses, and what stands behind it.
fn operand(tokens: &[PpToken]) -> Option<(&Name, &[PpToken])>
    ensures { IfSome result (λ found. length found.1.now ≤ length tokens.now) }
{
    match tokens {
        [name, rest @ ..] if name.kind == PpKind::Name => Some((&name.text, rest)),
        [open, name, close, rest @ ..]
            if is_spelled(open, PpKind::Punct, b"(")
                && name.kind == PpKind::Name
                && is_spelled(close, PpKind::Punct, b")") => { Some((&name.text, rest)) }
        _ => None,
    }
}

/// The tokens with 1 or 0 for each `defined X` and `defined(X)`. Refused by K35 where a `defined` has no name behind
/// it.
fn resolved(
    alloc: Global,
    tokens: &[PpToken],
    macros: &Macros,
    hash: Place,
) -> Result<PpTokens, Refused>
    ensures { IfErr result (Refuses OfTerm) }
{
    let mut all = Vec::new(alloc);
    let mut rest = tokens;
    while let [first, others @ ..] = rest {
        if is_spelled(first, PpKind::Name, b"defined") {
            let Some((name, behind)) = operand(others) else {
                return Err(no_expression(hash));
            };
            all.push(truth(alloc, first, macros.is_defined(name))?)?;
            rest = behind;
        } else {
            all.push(first.copy(alloc)?)?;
            rest = others;
        }
    }
    Ok(PpTokens::from_vec(all))
}

/// Whether the value of an `#if` or `#elif` line, of which the tokens behind its name are given, is not 0.
fn is_true(alloc: Global, tokens: &[PpToken], macros: &Macros, hash: Place) -> Result<bool, Refused>
    ensures { IfErr result (Refuses OfCondition) }
{
    let line = resolved(alloc, tokens, macros, hash)?;
    let expanded = macros.expand(&line, 0)?;
    let tokens = expanded.as_slice();
    if tokens
        .iter()
        .any(|token| is_spelled(token, PpKind::Name, b"defined"))
    {
        return Err(no_expression(hash));
    }
    Ok(evaluate(alloc, tokens, hash)?.is_true())
}

/// Whether the name behind `#ifdef` or `#ifndef` is a macro. What stands behind it is ignored.
fn is_defined(tokens: &[PpToken], macros: &Macros, hash: Place) -> Result<bool, Refused>
    ensures { IfErr result (Refuses OfTerm) }
{
    match tokens {
        [name, ..] if name.kind == PpKind::Name => Ok(macros.is_defined(&name.text)),
        _ => Err(no_expression(hash)),
    }
}

/// Whether the group behind a line is to be read: a whole `#if`, `#elif`, `#ifdef` or `#ifndef` line, its `#` first
/// (C90 6.8.1).
///
/// `#if` and `#elif` compute in 32 bits. `defined X` is replaced before expansion, and a name that is left is 0. Refused
/// by K35, at the `#`, where there is no integral constant expression, an operand that is evaluated divides by zero,
/// `defined` came from a macro, or the name of `#ifdef` or `#ifndef` is missing; by K44, K45, L04 and L06 where a
/// token is none or has no value; and as expansion is, by K38, K42, L10 and L15.
pub fn condition(alloc: Global, line: &PpTokens, macros: &Macros) -> Result<bool, Refused>
    requires { 2 ≤ length line.now }
    ensures { IfErr result (Refuses OfCondition) }
{
    let [hash, directive, rest @ ..] = line.as_slice() else {
        unreachable!()
    };
    let rest = within_line(rest);
    match directive.text.as_slice() {
        b"ifdef" => is_defined(rest, macros, hash.place),
        b"ifndef" => Ok(!is_defined(rest, macros, hash.place)?),
        _ => is_true(alloc, rest, macros, hash.place),
    }
}
