//! The tokens of a controlling expression.

ghost use Rattle.std.specs.Prelude.{◌≡◌, IfErr};
ghost use Rattle.fsc_base.specs.declared.place.Refused.TheVariants as refusals;
ghost use Rattle.pp_token.specs.declared.token.PpKind.TheVariants as pp;
ghost use Rattle.c_lexer.specs.Answers.{IsKind};
ghost use Rattle.cpp_cond.specs.Causes.{OfTerm};
ghost use Rattle.cpp_cond.specs.Terms.{Reads, ReadsAll};
ghost use Rattle.cpp_cond.specs.Constants.{IsConstantKind};
ghost use Rattle.cpp_expand.specs.Causes.{Refuses};
ghost use Rattle.fsc_base.specs.declared.rule.Rule.TheVariants.{K35};

use crate::value::Value;
use c_lexer::{Punctuator, TokenKind, character_constant, number, read_punctuator};
use fsc_base::{Broken, Place, Refused, Rule};
use pp_token::{PpKind, PpToken};
use std::alloc::Global;

/// A token of a controlling expression after expansion.
#[derive(Clone, Copy, Debug)]
pub enum Term {
    /// A constant, or a name that was left.
    Operand(Value),
    /// An operator or punctuator.
    Operator(Punctuator),
}

/// The refusal of a line that is no integral constant expression, by its `#`.
pub fn no_expression(place: Place) -> Refused
    ensures is { result ≡ refusals.Broken (record { rule = K35; place = place }) }
    ensures cause { Refuses OfTerm result }
{
    Refused::Broken(Broken {
        rule: Rule::K35,
        place,
    })
}

/// The refusal of a token by a rule that it breaks itself.
fn broken(rule: Rule, place: Place) -> Refused
    ensures { result ≡ refusals.Broken (record { rule = rule; place = place }) }
{
    Refused::Broken(Broken { rule, place })
}

/// A constant as an operand, as it was read. Refused by K35 at that `#` where it is a floating one, and else by the rule
/// that it breaks, at its place.
#[tactic(auto, using(crate::proofs::Constants::is_constant_token))]
fn constant(token: &PpToken, read: Result<TokenKind, Rule>, hash: Place) -> Result<Term, Refused>
    requires kind { IsConstantKind token.now.kind }
    requires read { IsKind token.now.kind token.now.text read }
    ensures { Reads token.now hash result }
{
    match read {
        Ok(kind) => Ok(Term::Operand(Value::of_constant(&kind))),
        Err(Rule::L01) => Err(broken(Rule::K35, hash)),
        Err(rule) => Err(broken(rule, token.place)),
    }
}

/// An operator or punctuator. Refused by K35 at that `#` where there is none, as for `#` and `##`.
fn operator(token: &PpToken, hash: Place) -> Result<Term, Refused>
    requires kind { token.now.kind ≡ pp.Punct }
    ensures { Reads token.now hash result }
{
    match read_punctuator(token.text.as_slice()) {
        Some(punctuator) => Ok(Term::Operator(punctuator)),
        None => Err(broken(Rule::K35, hash)),
    }
}

/// What a token is in the expression of the line of that `#`. A name is 0. Refused by K35 at the `#` where it can stand in
/// no integral constant expression, as a floating constant, a string or a header name; at its own place by L04 or L06 where
/// it is a constant without a value, by K45 where it has an escape that is none, and by K44 where it is no token.
pub fn read_term(token: &PpToken, hash: Place) -> Result<Term, Refused>
    ensures reads { Reads token.now hash result }
    ensures refused { IfErr result (Refuses OfTerm) }
{
    let text = token.text.as_slice();
    match token.kind {
        PpKind::Name => Ok(Term::Operand(Value::truth(false))),
        PpKind::Punct => operator(token, hash),
        PpKind::Number => constant(token, number(text), hash),
        PpKind::Char => constant(token, character_constant(text), hash),
        PpKind::Other => Err(broken(Rule::K44, token.place)),
        PpKind::Str => Err(broken(Rule::K35, hash)),
        PpKind::Header => Err(broken(Rule::K35, hash)),
        PpKind::LineEnd => Err(broken(Rule::K35, hash)),
        PpKind::End => Err(broken(Rule::K35, hash)),
    }
}

/// What the tokens are in the expression of the line of that `#`. Refused as `read_term` for the first that is nothing there.
pub fn read_terms(alloc: Global, tokens: &[PpToken], hash: Place) -> Result<Vec<Term>, Refused>
    ensures read { ReadsAll tokens.now hash result }
    ensures refused { IfErr result (Refuses OfTerm) }
{
    let mut terms = Vec::with_capacity(alloc, tokens.len())?;
    for token in tokens {
        terms.push(read_term(token, hash)?)?;
    }
    Ok(terms)
}
