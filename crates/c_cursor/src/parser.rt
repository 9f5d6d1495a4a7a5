//! The tokens that are left, and how they are taken.

ghost use Rattle.std.specs.Prelude.{◌≡◌, ◌<◌, ◌≤◌, length, OnOk, true};
ghost use Rattle.c_cursor.specs.Taking.{Takes};

use crate::names::TypeNames;
use crate::refused::ParseRefused;
use c_lexer::{Punctuator, Token, TokenKind};
use fsc_base::{Bytes, Name, Place};
use std::alloc::Global;

/// The tokens that are left to read, and the names that stand for types there.
#[derive(Drop)]
pub struct Parser<'a> {
    /// The tokens from the next on. The last one is End, which is never taken.
    pub rest: &'a [Token],
    /// Where the tokens end.
    pub end: Place,
    pub names: TypeNames,
}

/// The place of the last of some tokens.
fn last_place(tokens: &[Token]) -> Place {
    match tokens {
        [.., token] => token.place,
        [] => Place {
            unit: 0,
            file: 0,
            line: 1,
        },
    }
}

impl<'a> Parser<'a> {
    /// A reader of tokens, of which the last is End, where those names stand for types.
    pub fn new(tokens: &'a [Token], names: TypeNames) -> Parser<'a>
        ensures { result.rest.now ≡ tokens.now }
    {
        Parser {
            rest: tokens,
            end: last_place(tokens),
            names,
        }
    }

    /// The place of the next token.
    pub fn place(&self) -> Place {
        match self.rest {
            [token, ..] => token.place,
            [] => self.end,
        }
    }

    /// The refusal of the next token, with which no derivable list goes on.
    pub fn unexpected(&self) -> ParseRefused {
        ParseRefused::Unexpected(self.place())
    }

    /// The refusal of the next token, with which only trees go on that are too deep.
    pub fn too_deep(&self) -> ParseRefused {
        ParseRefused::TooDeep(self.place())
    }

    /// Takes the next token. At the end of the tokens, which no caller reaches, it is refused as unexpected.
    pub fn take(&mut self) -> Result<(), ParseRefused>
        ensures { Takes self.old result self.new }
    {
        match self.rest {
            [_, rest @ ..] => {
                self.rest = rest;
                Ok(())
            }
            [] => Err(ParseRefused::Unexpected(self.end)),
        }
    }

    /// Takes the next token, which some derivable list goes on with, and puts things of this height one node deeper. Refused as
    /// too deep at that token where they are higher than the room for things in that node.
    pub fn take_within(&mut self, height: u32, room: u32) -> Result<(), ParseRefused>
        ensures { Takes self.old result self.new }
    {
        if height > room {
            return Err(self.too_deep());
        }
        self.take()
    }

    /// Takes the next token, where it is that punctuator. Answers whether it was.
    pub fn eat(&mut self, punctuator: Punctuator) -> bool
        ensures never_more { length self.new.rest.now ≤ length self.old.rest.now }
        ensures takes { result ≡ true → length self.new.rest.now < length self.old.rest.now }
    {
        match self.rest {
            [
                Token {
                    kind: TokenKind::Punct(found),
                    ..
                },
                rest @ ..,
            ] if *found == punctuator => {
                self.rest = rest;
                true
            }
            _ => false,
        }
    }

    /// Takes the next token, which has to be that punctuator; else it is refused as unexpected.
    pub fn expect(&mut self, punctuator: Punctuator) -> Result<(), ParseRefused>
        ensures { Takes self.old result self.new }
    {
        if self.eat(punctuator) {
            Ok(())
        } else {
            Err(self.unexpected())
        }
    }

    /// Takes the next token, which has to be that punctuator, and puts things of this height one node deeper: `expect`, with the
    /// refusal of `take_within` where the punctuator stands there.
    pub fn expect_within(
        &mut self,
        punctuator: Punctuator,
        height: u32,
        room: u32,
    ) -> Result<(), ParseRefused>
        ensures { Takes self.old result self.new }
    {
        if !self.is_at(punctuator) {
            return Err(self.unexpected());
        }
        self.take_within(height, room)
    }

    /// Takes the next token, which has to be a name, whatever the name stands for, and answers a copy of it. Refused as
    /// unexpected where it is none, and for want of memory.
    pub fn take_name(&mut self, alloc: Global) -> Result<Name, ParseRefused>
        ensures { Takes self.old result self.new }
    {
        match self.rest {
            [
                Token {
                    kind: TokenKind::Name(name),
                    ..
                },
                rest @ ..,
            ] => {
                self.rest = rest;
                Ok(Bytes::from_slice(alloc, name.as_slice())?)
            }
            _ => Err(self.unexpected()),
        }
    }
}
