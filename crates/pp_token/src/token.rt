//! Preprocessing tokens.

ghost use Rattle.std.specs.Prelude.{◌≡◌, IfOk};

use crate::hide_set::HideSet;
use fsc_base::{Bytes, NoMemory, Place};
use std::alloc::Global;
use std::marker::Model;

/// What a preprocessing token is (C90 6.1).
#[derive(Clone, Copy, Debug, PartialEq, Eq)]
pub enum PpKind {
    /// A header name with its delimiters, only directly after `include` in a directive.
    Header,
    /// An identifier, which may be a keyword.
    Name,
    /// A preprocessing number.
    Number,
    /// A character constant with its quotes, and with its L where it is wide.
    Char,
    /// A string literal with its quotes, and with its L where it is wide.
    Str,
    /// An operator or punctuator.
    Punct,
    /// Any other character, an unclosed quote among them.
    Other,
    /// The end of a line, also of a last one without a line feed. Its text is empty.
    LineEnd,
    /// The end of the file or of the unit. Its text is empty.
    End,
}

/// A preprocessing token.
#[derive(Debug, Drop)]
pub struct PpToken {
    pub kind: PpKind,
    /// Its spelling after phase 2.
    pub text: Bytes,
    /// Where its first character stands, or the macro name that it comes from.
    pub place: Place,
    /// Whether white space stands just before it: a blank, a comment or the end of a line.
    pub spaced: bool,
    /// The macros that it is not expanded for any more.
    pub hide: HideSet,
}

impl PpToken {
    /// The same token once more. Refused only for want of memory.
    pub fn copy(&self, alloc: Global) -> Result<PpToken, NoMemory>
        ensures { IfOk result (λ copy. copy ≡ self.now) }
    {
        self.copy_at(alloc, self.place)
    }

    /// The same token at another place. Refused only for want of memory.
    pub fn copy_at(&self, alloc: Global, place: Place) -> Result<PpToken, NoMemory>
        ensures { IfOk result (λ copy. copy ≡ record self.now { place = place }) }
    {
        Ok(PpToken {
            kind: self.kind,
            text: Bytes::from_slice(alloc, self.text.as_slice())?,
            place,
            spaced: self.spaced,
            hide: self.hide.copy(alloc)?,
        })
    }
}

/// A list of preprocessing tokens.
#[derive(Debug, Drop)]
pub struct PpTokens {
    items: Vec<PpToken>,
}

impl Model for PpTokens {
    ghost use Rattle.std.specs.Prelude.{List};
    ghost use Rattle.pp_token.specs.declared.token.PpToken.{PpToken};

    ghost Value = { List PpToken };

    ghost view = { λ t. t.items.items };
}

impl PpTokens {
    /// The tokens, from a vector. It takes no memory.
    pub fn from_vec(items: Vec<PpToken>) -> PpTokens
        ensures { result ≡ items.items }
    {
        PpTokens { items }
    }

    /// The same tokens as a vector. It takes no memory.
    pub fn into_vec(self) -> Vec<PpToken>
        ensures { result.items ≡ self }
    {
        let PpTokens { items } = self;
        items
    }

    /// The tokens, lent.
    pub fn as_slice(&self) -> &[PpToken]
        ensures { result.now ≡ self.now }
    {
        self.items.as_slice()
    }
}
