//! Tokens: phases 5 to 7 of a translation (C90 5.1.1.2 and 6.1).
#![tactic(auto)]

mod character;
mod floating;
mod integer;
mod keyword;
mod lexing;
mod literal;
mod punctuator;
mod single;
mod token;

pub use keyword::{Keyword, read_keyword};
pub use lexing::{lex, one_meaning, tokens};
pub use literal::{add_string, character_constant};
pub use punctuator::{Punctuator, read_punctuator};
pub use single::number;
pub use token::{BasicType, Token, TokenKind, Tokens};
