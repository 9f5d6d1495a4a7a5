//! Tokens.

ghost use Rattle.std.specs.Prelude.{◌≡◌};

use crate::keyword::Keyword;
use crate::punctuator::Punctuator;
use fsc_base::{Bytes, Name, Place};
use std::marker::Model;

/// The type of an integer constant.
#[derive(Clone, Copy, Debug, PartialEq, Eq)]
pub enum BasicType {
    Int,
    Unsigned,
    Long,
    UnsignedLong,
}

/// What a token is (C90 6.1).
#[derive(Debug, Drop)]
pub enum TokenKind {
    /// An identifier that is no keyword.
    Name(Name),
    Keyword(Keyword),
    /// An integer constant: its value and its type.
    Int(u32, BasicType),
    /// A character constant: its value. Its type is int.
    Char(u32),
    /// A string: its bytes, without the closing zero.
    Str(Bytes),
    /// An operator or punctuator.
    Punct(Punctuator),
    /// The end of the unit.
    End,
}

/// A token.
#[derive(Debug, Drop)]
pub struct Token {
    pub kind: TokenKind,
    /// The place of its preprocessing token, or of the first of the strings that were joined.
    pub place: Place,
}

/// A list of tokens.
#[derive(Debug, Drop)]
pub struct Tokens {
    items: Vec<Token>,
}

impl Model for Tokens {
    ghost use Rattle.std.specs.Prelude.{List};
    ghost use Rattle.c_lexer.specs.declared.token.Token.{Token};

    ghost Value = { List Token };

    ghost view = { λ t. t.items.items };
}

impl Tokens {
    /// The tokens, from a vector. It takes no memory.
    pub fn from_vec(items: Vec<Token>) -> Tokens
        ensures { result ≡ items.items }
    {
        Tokens { items }
    }

    /// The same tokens as a vector. It takes no memory.
    pub fn into_vec(self) -> Vec<Token>
        ensures { result.items ≡ self }
    {
        let Tokens { items } = self;
        items
    }

    /// The tokens, lent.
    pub fn as_slice(&self) -> &[Token]
        ensures { result.now ≡ self.now }
    {
        self.items.as_slice()
    }
}
