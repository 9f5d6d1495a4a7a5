//! Floating constants (C90 6.1.3.1), which are told apart to be refused.

ghost use Rattle.std.specs.Prelude.{◌≡◌, ◌≤◌, length, option_map};
ghost use Rattle.c_lexer.specs.Numbers.{after_exponent, decimal_count, ends_with_exponent, is_floating, is_floating_suffix, unsigned_text};

/// How many decimal digits stand at the front of `text`.
fn count_decimals(text: &[u8]) -> usize
    ensures count { result ≡ decimal_count text.now }
    ensures within { result ≤ length text.now }
{
    text.iter().take_while(|c| c.is_ascii_digit()).count()
}

/// The text behind a sign, where there is one.
fn skip_sign(text: &[u8]) -> &[u8]
    ensures { result.now ≡ unsigned_text text.now }
{
    match text {
        [b'+' | b'-', rest @ ..] => rest,
        _ => text,
    }
}

/// The text behind the exponent at its front, None where there is none.
fn skip_exponent(text: &[u8]) -> Option<&[u8]>
    ensures { option_map (λ rest. rest.now) result ≡ after_exponent text.now }
{
    let [b'e' | b'E', rest @ ..] = text else {
        return None;
    };
    let digits = skip_sign(rest);
    let count = count_decimals(digits);
    if count == 0 {
        None
    } else {
        Some(&digits[count..])
    }
}

/// Whether all of `text` is a suffix of a floating constant.
fn is_suffix(text: &[u8]) -> bool
    ensures { result ≡ is_floating_suffix text.now }
{
    matches!(text, [] | [b'f' | b'l' | b'F' | b'L'])
}

/// Whether `text` is an exponent and a suffix.
fn is_exponent_and_suffix(text: &[u8]) -> bool
    ensures { result ≡ ends_with_exponent text.now }
{
    match skip_exponent(text) {
        Some(rest) => is_suffix(rest),
        None => false,
    }
}

/// Whether `text` is a floating constant.
#[tactic(auto, unfolding(crate::specs::Numbers::is_floating))]
pub fn is_floating_constant(text: &[u8]) -> bool
    ensures { result ≡ is_floating text.now }
{
    let whole = count_decimals(text);
    match &text[whole..] {
        [b'.', rest @ ..] => {
            let fraction = count_decimals(rest);
            let behind = &rest[fraction..];
            (whole > 0 || fraction > 0) && (is_suffix(behind) || is_exponent_and_suffix(behind))
        }
        rest => whole > 0 && is_exponent_and_suffix(rest),
    }
}
