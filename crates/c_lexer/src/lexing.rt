//! Tokens from a unit after phase 4: phases 5 to 7 (C90 5.1.1.2).

ghost use Rattle.std.specs.Prelude.{◌≡◌, List, IfOk, IfErr, None};
ghost use Rattle.c_lexer.specs.Answers.{Finishes, IsBegun, IsRefusal, IsSingle, Takes};
ghost use Rattle.fsc_base.specs.declared.place.Broken.{Broken};
ghost use Rattle.pp_token.specs.declared.token.PpKind.TheVariants as pp;
ghost use Rattle.pp_token.specs.declared.token.PpToken.{PpToken};
ghost use Rattle.c_lexer.specs.declared.token.Token.{Token};
ghost use Rattle.c_lexer.specs.Lexing.{EndsWith, IsBroken, IsEnd, IsPpEnd, Lexed};

use crate::literal::{add_string, broken};
use crate::single::single_kind;
use crate::token::{Token, TokenKind, Tokens};
use fsc_base::{Bytes, Place, Refused, Rule};
use pp_token::{PpKind, PpToken, PpTokens, PpUnit};
use std::alloc::Global;

/// The most bytes of a string, without its closing zero.
const MOST_STRING_BYTES: usize = 65_535;

/// A string to which strings that follow are joined.
#[derive(Drop)]
struct OpenString {
    bytes: Vec<u8>,
    /// The place of its first literal.
    place: Place,
}

/// The tokens so far, and the string behind them that is not finished.
#[derive(Drop)]
struct Lexer {
    alloc: Global,
    done: Vec<Token>,
    unfinished: Option<OpenString>,
}

impl Lexer {
    /// Takes the next preprocessing token.
    fn take(&mut self, token: &PpToken) -> Result<(), Refused>
        ensures { Takes self.old self.new token.now result }
    {
        match token.kind {
            PpKind::LineEnd => Ok(()),
            PpKind::Str => self.take_string(token),
            _ => self.take_single(token),
        }
    }

    /// Takes a string literal, which is joined to the string before it.
    fn take_string(&mut self, token: &PpToken) -> Result<(), Refused>
        requires { token.now.kind ≡ pp.Str }
        ensures { Takes self.old self.new token.now result }
    {
        let mut string = self.begin_string(token.place);
        add_string(&mut string.bytes, token.text.as_slice(), token.place)?;
        self.unfinished = Some(string);
        Ok(())
    }

    /// The string that is not finished, or else an empty one at the place.
    fn begin_string(&mut self, place: Place) -> OpenString
        ensures begun { IsBegun self.old.unfinished place result }
        ensures kept { self.new ≡ record self.old { unfinished = None } }
    {
        match self.unfinished.take() {
            Some(string) => string,
            None => OpenString {
                bytes: Vec::new(self.alloc),
                place,
            },
        }
    }

    /// Takes a preprocessing token that becomes a token of its own.
    fn take_single(&mut self, token: &PpToken) -> Result<(), Refused>
        requires { IsSingle token.now.kind }
        ensures { Takes self.old self.new token.now result }
    {
        self.finish_string()?;
        let kind = single_kind(self.alloc, token.kind, token.text.as_slice(), token.place)?;
        self.done.push(Token {
            kind,
            place: token.place,
        })?;
        Ok(())
    }

    /// Finishes the string that is not finished. L04 at its place where it has too many bytes.
    fn finish_string(&mut self) -> Result<(), Refused>
        ensures { Finishes self.old self.new result }
    {
        let Some(OpenString { bytes, place }) = self.unfinished.take() else {
            return Ok(());
        };
        if bytes.len() > MOST_STRING_BYTES {
            return Err(broken(Rule::L04, place));
        }
        self.done.push(Token {
            kind: TokenKind::Str(Bytes::from_vec(bytes)),
            place,
        })?;
        Ok(())
    }
}

/// The tokens of a list of preprocessing tokens: escapes have their values, adjacent strings are joined, keywords and
/// constants are told apart, and the ends of lines are gone (C90 5.1.1.2, phases 5 to 7). Refused where a rule is
/// broken, one of K44, K45, L01, L04 and L06 with its place, and where no memory is left.
pub fn lex(alloc: Global, list: &PpTokens) -> Result<Tokens, Refused>
    // No rule is broken, and these are the tokens.
    ensures lexed { IfOk result (λ tokens. Lexed list.now tokens) }
    // That rule is broken at that place.
    ensures broken { IfErr result (λ refused. IsRefusal list.now refused) }
{
    let mut lexer = Lexer {
        alloc,
        done: Vec::new(alloc),
        unfinished: None,
    };
    for token in list.as_slice() {
        lexer.take(token)?;
    }
    lexer.finish_string()?;
    Ok(Tokens::from_vec(lexer.done))
}

/// The tokens of a unit after phase 4, as `lex` makes them of its list. Refused as `lex`.
pub fn tokens(alloc: Global, pp: &PpUnit) -> Result<Tokens, Refused>
    // No rule is broken, and these are the tokens.
    ensures lexed { IfOk result (λ tokens. Lexed pp.now.tokens tokens) }
    // That rule is broken at that place.
    ensures broken { IfErr result (λ refused. IsRefusal pp.now.tokens refused) }
    // The last one is End where the unit's last one is.
    ensures ends { EndsWith IsPpEnd pp.now.tokens → IfOk result (λ tokens. EndsWith IsEnd tokens) }
{
    lex(alloc, &pp.tokens)
}

/// A list that has tokens breaks no rule, and has these tokens alone.
pub fn one_meaning()
    ensures unbroken { (list : List PpToken) (tokens : List Token) → Lexed list tokens → (broken : Broken) → IsBroken list broken → ⊥ }
    ensures one { (list : List PpToken) (tokens others : List Token) → Lexed list tokens → Lexed list others → tokens ≡ others }
{}
