//! Bytes of memory.

use rv_asm::AsmNo;

/// Adds a word, its lowest byte first.
pub fn push_word(bytes: &mut Vec<u8>, word: u32) -> Result<(), AsmNo> {
    bytes.extend_from_slice(&word.to_le_bytes())?;
    Ok(())
}

/// Adds words.
pub fn push_words(bytes: &mut Vec<u8>, words: &[u32]) -> Result<(), AsmNo> {
    for word in words {
        push_word(bytes, *word)?;
    }
    Ok(())
}

/// Adds so many zero bytes.
pub fn push_zeros(bytes: &mut Vec<u8>, count: u32) -> Result<(), AsmNo> {
    for _ in 0..count {
        bytes.push(0)?;
    }
    Ok(())
}

/// How many bytes there are, where 32 bits can tell it.
pub fn count(bytes: &[u8]) -> Result<u32, AsmNo> {
    u32::try_from(bytes.len()).map_err(|_| AsmNo::Misfit)
}

/// The least multiple of 16 that is not below a number.
pub fn next_sixteen(number: u32) -> Result<u32, AsmNo> {
    match number.checked_add(15) {
        None => Err(AsmNo::Misfit),
        Some(last) => Ok(last / 16 * 16),
    }
}
