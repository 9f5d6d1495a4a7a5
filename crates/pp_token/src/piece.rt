//! What stands at the front of a text: white space, a comment, the end of a line or a token.

ghost use Rattle.std.specs.Prelude.{◌≡◌, ◌≤◌, ◌<◌, ◌++◌, ◌↔◌, IsTrue, length, IfSome, false, take};
ghost use Rattle.std.specs.List.{prefix_len};
ghost use Rattle.pp_token.specs.Spelling as words;
ghost use Rattle.pp_token.specs.Scanning as scanning;
ghost use Rattle.pp_token.specs.Tokens as phase;
ghost use Rattle.pp_token.specs.Stepping.{IsMark, Knows, is_marked, marked, nothing};

use crate::spelling::{Found, Quote, is_blank, opening_at, plain, quoted};
use crate::token::PpKind;

/// Where in its line the next token stands.
#[derive(Clone, Copy, PartialEq, Eq)]
pub enum Spot {
    /// It is the line's first.
    LineStart,
    /// Only `#` stands before it.
    AfterHash,
    /// Only `#` and `include` stand before it.
    AfterInclude,
    /// Elsewhere.
    Within,
}

impl Spot {
    /// Where a token stands that comes behind this one.
    #[tactic(auto, unfolding(crate::specs::Tokens::spot_after))]
    pub fn after(self, kind: PpKind, text: &[u8]) -> Spot
        ensures { result ≡ phase.spot_after self kind text.now }
    {
        match (self, kind) {
            (Spot::LineStart, PpKind::Punct) if text == b"#".as_slice() => Spot::AfterHash,
            (Spot::AfterHash, PpKind::Name) if text == b"include".as_slice() => Spot::AfterInclude,
            _ => Spot::Within,
        }
    }
}

/// Which quotes are known to be unclosed from here to the end of the line, so that no line is searched twice.
#[derive(Clone, Copy)]
pub struct Unclosed {
    pub single: bool,
    pub double: bool,
}

impl Unclosed {
    /// Nothing is known.
    pub fn none() -> Unclosed
        ensures { result ≡ nothing }
    {
        Unclosed {
            single: false,
            double: false,
        }
    }

    /// What is known behind these characters: nothing where a line ended there.
    #[tactic(auto, using(crate::proofs::UnclosedLaws::knows_behind))]
    pub fn behind(self, passed: &[u8], rest: &[u8]) -> Unclosed
        requires { Knows self (passed.now ++ rest.now) }
        ensures { Knows result rest.now }
    {
        if passed.contains(&b'\n') {
            return Unclosed::none();
        }
        self
    }
}

/// What stands at the front of a text.
#[derive(Clone, Copy)]
pub enum Piece {
    /// A white-space character or a comment, of so many characters.
    Blank(usize),
    /// A comment that isn't closed.
    OpenComment,
    /// The end of a line.
    LineEnd,
    Token(Found),
}

impl Piece {
    /// How many characters it has.
    pub fn length(self) -> usize
        ensures { result ≡ phase.length_of self }
    {
        match self {
            Piece::Blank(length) => length,
            Piece::OpenComment | Piece::LineEnd => 1,
            Piece::Token(found) => found.length,
        }
    }

    /// Whether it is white space.
    pub fn is_space(self) -> bool
        ensures { result ≡ phase.is_space self }
    {
        !matches!(self, Piece::Token(_))
    }
}

/// How many characters up to and with the `*/` that closes a comment.
fn comment_rest(text: &[u8]) -> Option<usize>
    ensures length { result ≡ scanning.comment_rest false text.now }
    ensures within { IfSome result (λ n. n ≤ length text.now) }
{
    let mut starred = false;
    let mut length = 0;
    let mut rest = text;
    while let [c, behind @ ..] = rest {
        length += 1;
        if starred && *c == b'/' {
            return Some(length);
        }
        starred = *c == b'*';
        rest = behind;
    }
    None
}

/// How many characters up to and with `close`, which stands on this line behind at least one character.
fn header_rest(close: u8, text: &[u8]) -> Option<usize>
    ensures length { result ≡ scanning.header_rest close false text.now }
    ensures within { IfSome result (λ n. n ≤ length text.now) }
{
    let mut some = false;
    let mut length = 0;
    let mut rest = text;
    while let [c, behind @ ..] = rest {
        if *c == b'\n' {
            return None;
        }
        length += 1;
        if *c == close {
            return some.then_some(length);
        }
        some = true;
        rest = behind;
    }
    None
}

/// The header name at the front (C90 6.1.7).
#[tactic(auto, unfolding(crate::specs::Scanning::header_at))]
fn header(text: &[u8]) -> Option<Found>
    ensures header { result ≡ scanning.header_at text.now }
    ensures within { IfSome result (λ found. found.length ≤ length text.now) }
    ensures some { IfSome result (λ found. 0 < found.length) }
{
    match text {
        [b'<', behind @ ..] => {
            let rest = header_rest(b'>', behind)?;
            Some(Found {
                kind: PpKind::Header,
                length: 1 + rest,
            })
        }
        [b'"', behind @ ..] => {
            let rest = header_rest(b'"', behind)?;
            Some(Found {
                kind: PpKind::Header,
                length: 1 + rest,
            })
        }
        _ => None,
    }
}

impl Unclosed {
    /// Whether such a quote is known to be unclosed.
    fn has(self, quote: Quote) -> bool
        ensures { result ≡ is_marked self quote }
    {
        match quote {
            Quote::Single => self.single,
            Quote::Double => self.double,
        }
    }

    /// Marks such quotes as unclosed.
    fn add(&mut self, quote: Quote)
        ensures { self.new ≡ marked self.old quote }
    {
        match quote {
            Quote::Single => self.single = true,
            Quote::Double => self.double = true,
        }
    }
}

/// The character constant or string literal at the front.
#[tactic(auto, unfolding(crate::specs::Scanning::quoted_at), using(crate::proofs::UnclosedLaws::known_open, crate::proofs::UnclosedLaws::newly_known))]
fn quoted_front(text: &[u8], unclosed: &mut Unclosed) -> Option<Found>
    requires { Knows unclosed.old text.now }
    ensures found { result ≡ scanning.quoted_at text.now }
    ensures known { Knows unclosed.new text.now }
    ensures within { IfSome result (λ found. found.length ≤ length text.now) }
    ensures some { IfSome result (λ found. 0 < found.length) }
{
    let (opening, behind) = opening_at(text)?;
    if unclosed.has(opening.quote) {
        return None;
    }
    match quoted(opening, behind) {
        Some(found) => Some(found),
        None => {
            unclosed.add(opening.quote);
            None
        }
    }
}

/// The token at the front that is no header name, read from left to right.
#[tactic(auto, unfolding(crate::specs::Scanning::front))]
fn front(text: &[u8], unclosed: &mut Unclosed) -> Found
    requires some { 0 < length text.now }
    requires known { Knows unclosed.old text.now }
    ensures found { result ≡ scanning.front text.now }
    ensures known { Knows unclosed.new text.now }
    ensures within { result.length ≤ length text.now }
    ensures some { 0 < result.length }
{
    match quoted_front(text, unclosed) {
        Some(found) => found,
        None => plain(text),
    }
}

/// The longest token at the front that is no header name, where no white space stands there.
#[tactic(auto, using(crate::proofs::TokenLaws::front_longest))]
fn longest(text: &[u8], unclosed: &mut Unclosed) -> Found
    requires some { IsMark text.now }
    requires known { Knows unclosed.old text.now }
    ensures found { result ≡ words.longest_token text.now }
    ensures known { Knows unclosed.new text.now }
    ensures within { result.length ≤ length text.now }
    ensures some { 0 < result.length }
{
    front(text, unclosed)
}

/// The longest token at the front, where no white space stands there.
#[tactic(auto, unfolding(crate::specs::Tokens::token_at), using(crate::proofs::HeaderLaws::header_longest, crate::proofs::HeaderLaws::header_none))]
fn token(text: &[u8], spot: Spot, unclosed: &mut Unclosed) -> Found
    requires some { IsMark text.now }
    requires known { Knows unclosed.old text.now }
    ensures found { result ≡ phase.token_at spot text.now }
    ensures known { Knows unclosed.new text.now }
    ensures within { result.length ≤ length text.now }
    ensures some { 0 < result.length }
{
    if spot != Spot::AfterInclude {
        return longest(text, unclosed);
    }
    match header(text) {
        Some(found) => found,
        None => longest(text, unclosed),
    }
}

/// What stands at the front.
#[tactic(auto, unfolding(crate::specs::Tokens::piece_at))]
pub fn piece_at(text: &[u8], spot: Spot, unclosed: &mut Unclosed) -> Piece
    requires some { 0 < length text.now }
    requires known { Knows unclosed.old text.now }
    ensures piece { result ≡ phase.piece_at spot text.now }
    ensures known { Knows unclosed.new text.now }
    ensures within { phase.length_of result ≤ length text.now }
    ensures some { 0 < phase.length_of result }
{
    match text {
        [b'/', b'*', behind @ ..] => match comment_rest(behind) {
            Some(length) => Piece::Blank(2 + length),
            None => Piece::OpenComment,
        },
        [b'\n', ..] => Piece::LineEnd,
        [c, ..] if is_blank(*c) => Piece::Blank(1),
        _ => Piece::Token(token(text, spot, unclosed)),
    }
}

/// Whether it begins with a character that is no white space.
fn begins_with_mark(text: &[u8]) -> bool
    ensures { IsTrue result ↔ IsMark text.now }
{
    match text {
        [] => false,
        [c, ..] => !is_blank(*c) && *c != b'\n',
    }
}

/// The kind of the one preprocessing token that all of `text` spells, outside of an `#include` line. None where it is
/// none: for no character, for several tokens, for white space. Never Header, LineEnd or End.
#[tactic(auto, using(crate::proofs::KindLaws::kind_of_white, crate::proofs::KindLaws::kind_of_longest, crate::proofs::KindLaws::kind_of_shorter))]
pub fn kind_of(text: &[u8]) -> Option<PpKind>
    ensures { result ≡ words.kind_of text.now }
{
    if !begins_with_mark(text) {
        return None;
    }
    let found = longest(text, &mut Unclosed::none());
    if found.length == text.len() {
        Some(found.kind)
    } else {
        None
    }
}
