//! Preprocessing tokens by their spelling (C90 6.1).

ghost use Rattle.std.specs.Prelude.{◌≡◌, ◌≤◌, ◌<◌, ◌+◌, length, false, IfSome, option_map};
ghost use Rattle.std.specs.List.{prefix_len};
ghost use Rattle.pp_token.specs.Spelling as words;
ghost use Rattle.pp_token.specs.Scanning as scanning;

use crate::token::PpKind;

/// Whether it is a letter or an underscore.
#[tactic(auto, unfolding(crate::specs::Spelling::is_nondigit))]
fn is_nondigit(c: u8) -> bool
    ensures { result ≡ words.is_nondigit c }
{
    c == b'_' || c.is_ascii_alphabetic()
}

/// Whether an identifier can go on with it.
#[tactic(auto, unfolding(crate::specs::Spelling::is_name_character))]
fn is_name_character(c: u8) -> bool
    ensures { result ≡ words.is_name_character c }
{
    is_nondigit(c) || c.is_ascii_digit()
}

/// How many characters at the front an identifier can go on with.
fn name_rest(text: &[u8]) -> usize
    ensures length { result ≡ prefix_len words.is_name_character text.now }
    ensures within { result ≤ length text.now }
{
    text.iter().take_while(|c| is_name_character(**c)).count()
}

/// How many characters at the front are an identifier (C90 6.1.2).
#[tactic(auto, unfolding(crate::specs::Scanning::name_length))]
fn name_length(text: &[u8]) -> usize
    ensures length { result ≡ scanning.name_length text.now }
    ensures within { result ≤ length text.now }
{
    match text {
        [c, behind @ ..] if is_nondigit(*c) => 1 + name_rest(behind),
        _ => 0,
    }
}

/// Whether a preprocessing number can go on with `c` behind `previous`.
#[tactic(auto, unfolding(crate::specs::Spelling::number_goes_on))]
fn number_goes_on(previous: u8, c: u8) -> bool
    ensures { result ≡ words.number_goes_on previous c }
{
    is_name_character(c)
        || c == b'.'
        || ((c == b'+' || c == b'-') && (previous == b'e' || previous == b'E'))
}

/// How many characters at the front go on with a preprocessing number that ended in `previous`.
fn number_rest(previous: u8, text: &[u8]) -> usize
    ensures length { result ≡ scanning.number_rest previous text.now }
    ensures within { result ≤ length text.now }
{
    let mut last = previous;
    let mut length = 0;
    let mut rest = text;
    while let [c, behind @ ..] = rest {
        if !number_goes_on(last, *c) {
            return length;
        }
        last = *c;
        length += 1;
        rest = behind;
    }
    length
}

/// How many characters at the front are a preprocessing number (C90 6.1.8).
#[tactic(auto, unfolding(crate::specs::Scanning::number_length))]
fn number_length(text: &[u8]) -> usize
    ensures length { result ≡ scanning.number_length text.now }
    ensures within { result ≤ length text.now }
{
    match text {
        [c, behind @ ..] if c.is_ascii_digit() => 1 + number_rest(*c, behind),
        [b'.', c, behind @ ..] if c.is_ascii_digit() => 2 + number_rest(*c, behind),
        _ => 0,
    }
}

/// How many characters up to and with the `quote` that closes, which a backslash doesn't escape and that stands on
/// this line.
fn closing(quote: u8, text: &[u8]) -> Option<usize>
    ensures length { result ≡ scanning.closing quote false text.now }
    ensures within { IfSome result (λ n. n ≤ length text.now) }
{
    let mut escaped = false;
    let mut length = 0;
    let mut rest = text;
    while let [c, behind @ ..] = rest {
        if *c == b'\n' {
            return None;
        }
        length += 1;
        if !escaped && *c == quote {
            return Some(length);
        }
        escaped = !escaped && *c == b'\\';
        rest = behind;
    }
    None
}

/// What a character constant or a string literal begins and ends with.
#[derive(Clone, Copy, PartialEq, Eq)]
pub enum Quote {
    Single,
    Double,
}

impl Quote {
    /// The quote that the character is.
    fn of(c: u8) -> Option<Quote>
        ensures { result ≡ scanning.quote_of c }
    {
        match c {
            b'\'' => Some(Quote::Single),
            b'"' => Some(Quote::Double),
            _ => None,
        }
    }

    fn character(self) -> u8
        ensures { result ≡ scanning.character_of self }
    {
        match self {
            Quote::Single => b'\'',
            Quote::Double => b'"',
        }
    }

    fn kind(self) -> PpKind
        ensures { result ≡ scanning.kind_of_quote self }
    {
        match self {
            Quote::Single => PpKind::Char,
            Quote::Double => PpKind::Str,
        }
    }
}

/// A character constant or string literal that may stand at the front of a text.
#[derive(Clone, Copy)]
pub struct Opening {
    pub quote: Quote,
    /// Whether an L stands before the quote.
    pub wide: bool,
}

/// A preprocessing token at the front of a text: what it is, and how many characters it has.
#[derive(Clone, Copy)]
pub struct Found {
    pub kind: PpKind,
    pub length: usize,
}

/// The character constant or string literal that `opening` begins, from the text behind its quote (C90 6.1.3.4 and
/// 6.1.4).
#[tactic(auto, unfolding(crate::specs::Scanning::quoted))]
pub fn quoted(opening: Opening, behind: &[u8]) -> Option<Found>
    ensures found { result ≡ scanning.quoted opening behind.now }
    ensures within { IfSome result (λ found. found.length ≤ scanning.front_of opening + length behind.now) }
    ensures some { IfSome result (λ found. 0 < found.length) }
{
    let length = closing(opening.quote.character(), behind)?;
    let front = if opening.wide { 2 } else { 1 };
    Some(Found {
        kind: opening.quote.kind(),
        length: front + length,
    })
}

/// Whether it is an operator or a punctuator (C90 6.1.5 and 6.1.6) of three characters.
#[tactic(auto, unfolding(crate::specs::Spelling::is_punctuator_of_3))]
fn is_punctuator_of_3(a: u8, b: u8, c: u8) -> bool
    ensures { result ≡ words.is_punctuator_of_3 a b c }
{
    matches!(
        (a, b, c),
        (b'.', b'.', b'.') | (b'<', b'<', b'=') | (b'>', b'>', b'=')
    )
}

/// The same of two characters.
#[tactic(auto, unfolding(crate::specs::Spelling::is_punctuator_of_2))]
fn is_punctuator_of_2(a: u8, b: u8) -> bool
    ensures { result ≡ words.is_punctuator_of_2 a b }
{
    match a {
        b'-' => b == b'>' || b == b'-' || b == b'=',
        b'+' | b'&' | b'|' | b'<' | b'>' => b == a || b == b'=',
        b'=' | b'!' | b'*' | b'/' | b'%' | b'^' => b == b'=',
        b'#' => b == b'#',
        _ => false,
    }
}

/// The same of one character.
#[tactic(auto, unfolding(crate::specs::Spelling::is_punctuator_of_1))]
fn is_punctuator_of_1(c: u8) -> bool
    ensures { result ≡ words.is_punctuator_of_1 c }
{
    b"[](){}.&*+-~!/%<>^|?:=,;#".contains(&c)
}

/// How many characters at the front are an operator or a punctuator.
#[tactic(auto, unfolding(crate::specs::Scanning::punctuator_length))]
fn punctuator_length(text: &[u8]) -> usize
    ensures length { result ≡ scanning.punctuator_length text.now }
    ensures within { result ≤ length text.now }
{
    match text {
        [a, b, c, ..] if is_punctuator_of_3(*a, *b, *c) => 3,
        [a, b, ..] if is_punctuator_of_2(*a, *b) => 2,
        [a, ..] if is_punctuator_of_1(*a) => 1,
        _ => 0,
    }
}

/// What opens at the front, and the text behind its quote.
#[tactic(auto, unfolding(crate::specs::Scanning::opening_at))]
pub fn opening_at(text: &[u8]) -> Option<(Opening, &[u8])>
    ensures found { option_map (λ found. (found.0, found.1.now)) result ≡ scanning.opening_at text.now }
    ensures within { IfSome result (λ found. scanning.front_of found.0 + length found.1.now ≡ length text.now) }
{
    match text {
        [b'L', c, behind @ ..] => {
            let quote = Quote::of(*c)?;
            Some((Opening { quote, wide: true }, behind))
        }
        [c, behind @ ..] => {
            let quote = Quote::of(*c)?;
            Some((Opening { quote, wide: false }, behind))
        }
        [] => None,
    }
}

/// The longest token at the front that is neither quoted nor a header name. Where no other is there, it is the first
/// character.
#[tactic(auto, unfolding(crate::specs::Scanning::plain))]
pub fn plain(text: &[u8]) -> Found
    ensures found { result ≡ scanning.plain text.now }
    ensures within { 0 < length text.now → result.length ≤ length text.now }
    ensures some { 0 < result.length }
{
    let length = name_length(text);
    if length > 0 {
        return Found {
            kind: PpKind::Name,
            length,
        };
    }
    let length = number_length(text);
    if length > 0 {
        return Found {
            kind: PpKind::Number,
            length,
        };
    }
    let length = punctuator_length(text);
    if length > 0 {
        return Found {
            kind: PpKind::Punct,
            length,
        };
    }
    Found {
        kind: PpKind::Other,
        length: 1,
    }
}

/// Whether it is white space inside a line (C90 6.1).
#[tactic(auto, unfolding(crate::specs::Spelling::is_blank))]
pub fn is_blank(c: u8) -> bool
    ensures { result ≡ words.is_blank c }
{
    c == b' ' || c == b'\t' || c == 0x0b || c == 0x0c
}
