//! Texts with escapes.

use std::alloc::{AllocError, AllocFailed, Global};

/// Why a text with escapes stands for no bytes.
#[derive(Clone, Copy, Debug, PartialEq, Eq)]
pub enum EscapeNo {
    /// A backslash has none of `\`, `n`, `r`, `t` and `x` with two hexadecimal digits behind it.
    NoEscape,
    NoMemory,
}

/// What of an escape was read.
#[derive(Clone, Copy)]
enum Escape {
    Nothing,
    Backslash,
    /// The backslash and the x.
    Hexadecimal,
    /// The backslash, the x and a digit of this value.
    HighDigit(u8),
}

/// The bytes that a text stands for, where `\\`, `\n`, `\r`, `\t` and `\xHH` are the bytes that they are in Rust, and each
/// other byte is itself. Refused where a backslash begins something else, and for want of memory.
pub fn unescaped(alloc: Global, text: &str) -> Result<Vec<u8>, EscapeNo> {
    let mut bytes = Vec::new(alloc);
    let mut read = Escape::Nothing;
    for byte in text.as_bytes() {
        read = after(read, *byte, &mut bytes)?;
    }
    match read {
        Escape::Nothing => Ok(bytes),
        _ => Err(EscapeNo::NoEscape),
    }
}

/// What of an escape is read with one byte more, where a whole one's byte is put behind the others.
fn after(read: Escape, byte: u8, bytes: &mut Vec<u8>) -> Result<Escape, EscapeNo> {
    let whole = match (read, byte) {
        (Escape::Nothing, b'\\') => return Ok(Escape::Backslash),
        (Escape::Backslash, b'x') => return Ok(Escape::Hexadecimal),
        (Escape::Hexadecimal, _) => return Ok(Escape::HighDigit(digit(byte)?)),
        (Escape::Nothing, _) => byte,
        (Escape::Backslash, _) => escaped(byte)?,
        (Escape::HighDigit(high), _) => high.wrapping_mul(16) | digit(byte)?,
    };
    bytes.push(whole)?;
    Ok(Escape::Nothing)
}

/// The byte that one behind a backslash stands for.
fn escaped(byte: u8) -> Result<u8, EscapeNo> {
    match byte {
        b'\\' => Ok(b'\\'),
        b'n' => Ok(b'\n'),
        b'r' => Ok(b'\r'),
        b't' => Ok(b'\t'),
        _ => Err(EscapeNo::NoEscape),
    }
}

/// The value of a hexadecimal digit.
fn digit(byte: u8) -> Result<u8, EscapeNo> {
    match byte {
        b'0'..=b'9' => Ok(byte - b'0'),
        b'a'..=b'f' => Ok(byte - b'a' + 10),
        b'A'..=b'F' => Ok(byte - b'A' + 10),
        _ => Err(EscapeNo::NoEscape),
    }
}

impl From<AllocError> for EscapeNo {
    fn from(_error: AllocError) -> EscapeNo {
        EscapeNo::NoMemory
    }
}

impl<T: Drop> From<AllocFailed<T>> for EscapeNo {
    fn from(_error: AllocFailed<T>) -> EscapeNo {
        EscapeNo::NoMemory
    }
}
