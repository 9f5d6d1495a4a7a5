//! Characters and escapes in character constants and string literals (C90 6.1.3.4).

ghost use Rattle.std.specs.Prelude.{◌≡◌, ◌≤◌, length, IfOk};
ghost use Rattle.std.specs.Str.Parse.{AllDigits, digits_value};
ghost use Rattle.c_lexer.specs.Characters.{character, escape, hexadecimal, octal, simple_escape};
ghost use Rattle.c_lexer.specs.Readers.{IsByte, Reads};

use crate::integer::{digits_number, split_digits};
use fsc_base::Rule;

/// The most digits of an octal escape.
const MOST_OCTAL_DIGITS: usize = 3;

/// The character that a letter stands for behind a backslash: the letter itself where it has no meaning there.
fn simple_escape(letter: u8) -> u8
    ensures { result ≡ simple_escape letter }
{
    match letter {
        b'a' => 7,
        b'b' => 8,
        b'f' => 12,
        b'n' => 10,
        b'r' => 13,
        b't' => 9,
        b'v' => 11,
        other => other,
    }
}

/// The byte that digits to a base write. K45 where they write more than 255.
fn escaped_byte(base: u32, digits: &[u8]) -> Result<u8, Rule>
    requires base { (2 ≤ base) × (base ≤ 16) }
    requires digits { AllDigits base digits.now }
    ensures { IsByte result (digits_value base digits.now) }
{
    match digits_number(base, digits) {
        Some(number) if number <= 255 => Ok(number as u8),
        _ => Err(Rule::K45),
    }
}

/// The hexadecimal escape whose digits are in front, and the text behind them. K45 where there is no digit, or the
/// value is above 255.
fn hexadecimal_escape(text: &[u8]) -> Result<(u8, &[u8]), Rule>
    ensures { Reads (λ text. text.now) result (hexadecimal text.now) }
{
    let (digits, rest) = split_digits(16, text);
    if digits.is_empty() {
        return Err(Rule::K45);
    }
    Ok((escaped_byte(16, digits)?, rest))
}

/// The octal escape whose one to three digits are in front, and the text behind them. K45 where the value is above
/// 255.
fn octal_escape(text: &[u8]) -> Result<(u8, &[u8]), Rule>
    ensures { Reads (λ text. text.now) result (octal text.now) }
{
    let (digits, _) = split_digits(8, text);
    let (digits, rest) = text.split_at(digits.len().min(MOST_OCTAL_DIGITS));
    Ok((escaped_byte(8, digits)?, rest))
}

/// The character whose escape is in front, behind the backslash, and the text behind it. A backslash at the end of
/// the text stands for itself. K45 as the two above.
fn escape(text: &[u8]) -> Result<(u8, &[u8]), Rule>
    ensures { Reads (λ text. text.now) result (escape text.now) }
{
    match text {
        [] => Ok((b'\\', text)),
        [b'x', rest @ ..] => hexadecimal_escape(rest),
        [b'0'..=b'7', ..] => octal_escape(text),
        [letter, rest @ ..] => Ok((simple_escape(*letter), rest)),
    }
}

/// The character that begins with `first` and goes on in `rest`, as its byte, and the text behind it. K45 where it is
/// an octal or hexadecimal escape above 255, or `\x` without a digit.
#[tactic(auto, unfolding(crate::specs::Characters::character))]
pub fn character(first: u8, rest: &[u8]) -> Result<(u8, &[u8]), Rule>
    ensures read { Reads (λ text. text.now) result (character first rest.now) }
    ensures shorter { IfOk result (λ read. length read.1.now ≤ length rest.now) }
{
    if first == b'\\' {
        escape(rest)
    } else {
        Ok((first, rest))
    }
}
