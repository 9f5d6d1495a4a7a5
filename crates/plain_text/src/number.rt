//! Decimal numbers.

ghost use Rattle.std.specs.Prelude.{◌≡◌, ℕ, ◌≤◌, ◌↔◌, IsTrue, IfSome, Some, length};
ghost use Rattle.std.specs.Fmt.{decimal};
ghost use Rattle.std.specs.Char.{is_ascii_digit};
ghost use Rattle.std.specs.List.{prefix_len};
ghost use Rattle.plain_text.specs.Reading.{Finds, IsPadded, byte_of, number_at};

use crate::token::skip_blanks;

/// Whether `digits` has a plus sign or a zero in front, which Rust's own reading of a number allows.
fn is_padded(digits: &[u8]) -> bool
    ensures { IsTrue result ↔ IsPadded digits.now }
{
    matches!(digits, [b'+', ..] | [b'0', _, ..])
}

/// The number from 0 to `most` whose decimal, without a leading zero, is the whole of `digits`. None where there is
/// no such number: for no digit, another character, a sign, a leading zero, or a number above `most`.
pub fn decimal_number(digits: &[u8], most: u64) -> Option<u64>
    ensures found { IfSome result (λ n. (n ≤ most) × (digits.now ≡ decimal n)) }
    ensures only { (n : ℕ) → n ≤ most → digits.now ≡ decimal n → result ≡ Some n }
{
    if is_padded(digits) {
        return None;
    }
    let number: u64 = str::from_utf8(digits).ok()?.parse().ok()?;
    if number <= most { Some(number) } else { None }
}

/// The number from 0 to 255 that is spelled by all of `digits`.
fn byte_number(digits: &[u8]) -> Option<u8>
    ensures { result ≡ byte_of digits.now }
{
    let number = decimal_number(digits, 255)?;
    Some(number as u8)
}

/// How many digits stand at the front of `text`.
fn digit_count(text: &[u8]) -> usize
    ensures count { result ≡ prefix_len is_ascii_digit text.now }
    ensures within { result ≤ length text.now }
{
    text.iter().take_while(|c| c.is_ascii_digit()).count()
}

/// The number from 0 to 255 at the front of `text`, which takes each digit there, and the text behind it and its
/// blanks.
#[tactic(auto, unfolding(crate::specs::Reading::number_at))]
pub fn number(text: &[u8]) -> Option<(u8, &[u8])>
    ensures { Finds (λ found. (found.0, found.1.now)) result (number_at text.now) }
{
    let (digits, behind) = text.split_at(digit_count(text));
    let number = byte_number(digits)?;
    Some((number, skip_blanks(behind)))
}
