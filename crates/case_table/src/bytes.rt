//! Bytes in tables: as text with escapes, and as hexadecimal numbers.

use crate::refusal::NoStep;
use std::alloc::{AllocError, Global};

/// What a hexadecimal digit stands for.
fn digit_of(byte: u8) -> Option<u8> {
    match byte {
        b'0'..=b'9' => Some(byte - b'0'),
        b'a'..=b'f' => Some(byte - b'a' + 10),
        b'A'..=b'F' => Some(byte - b'A' + 10),
        _ => None,
    }
}

/// The byte of two hexadecimal digits.
fn byte_of(high: u8, low: u8) -> Option<u8> {
    let (high, low) = (digit_of(high)?, digit_of(low)?);
    Some((high << 4) | (low & 15))
}

/// The byte that a text begins with, and the rest of it: `\n`, `\\` and `\x` with two hexadecimal digits stand for one
/// byte each, and so does every other byte. None where there is no other escape of that name.
fn first_byte(text: &[u8]) -> Option<(u8, &[u8])> {
    match text {
        [b'\\', b'n', rest @ ..] => Some((b'\n', rest)),
        [b'\\', b'\\', rest @ ..] => Some((b'\\', rest)),
        [b'\\', b'x', high, low, rest @ ..] => Some((byte_of(*high, *low)?, rest)),
        [b'\\', ..] | [] => None,
        [byte, rest @ ..] => Some((*byte, rest)),
    }
}

/// The bytes of a text with escapes. Refused where there is no such escape.
pub fn bytes_of_text(alloc: Global, text: &str) -> Result<Vec<u8>, NoStep> {
    let mut bytes = Vec::new(alloc);
    let mut rest = text.as_bytes();
    for _ in 0..text.len() {
        if rest.is_empty() {
            break;
        }
        let Some((byte, behind)) = first_byte(rest) else {
            return Err(NoStep::Malformed("no such escape"));
        };
        bytes.push(byte)?;
        rest = behind;
    }
    Ok(bytes)
}

/// Bytes as a text with escapes, between quotes.
pub fn text_of(alloc: Global, bytes: &[u8]) -> Result<String, AllocError> {
    let mut text = String::from_str(alloc, "\"")?;
    for byte in bytes {
        match *byte {
            b'\n' => text.push_str("\\n")?,
            b'\\' => text.push_str("\\\\")?,
            byte @ (b' ' | b'!' | b'#'..=b'~') => text.push(char::from(byte))?,
            byte => text.push_str(&format!(in alloc; "\\x{byte:02x}")?)?,
        }
    }
    text.push('"')?;
    Ok(text)
}

/// The bytes of words of two hexadecimal digits. Refused where a word is none.
pub fn bytes_of_hex(alloc: Global, words: &[&str]) -> Result<Vec<u8>, NoStep> {
    let mut bytes = Vec::new(alloc);
    for word in words {
        let [high, low] = word.as_bytes() else {
            return Err(NoStep::Malformed("no byte of two digits"));
        };
        let Some(byte) = byte_of(*high, *low) else {
            return Err(NoStep::Malformed("no hexadecimal digits"));
        };
        bytes.push(byte)?;
    }
    Ok(bytes)
}

/// Bytes as words of two hexadecimal digits.
pub fn hex_of(alloc: Global, bytes: &[u8]) -> Result<String, AllocError> {
    let mut text = String::new(alloc);
    for byte in bytes {
        if !text.is_empty() {
            text.push(' ')?;
        }
        text.push_str(&format!(in alloc; "{byte:02x}")?)?;
    }
    Ok(text)
}
