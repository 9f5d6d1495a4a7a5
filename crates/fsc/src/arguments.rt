//! The words of the process.

use fsc_base::{Bytes, Name, NoMemory};
use std::alloc::Global;
use std::env::FillError;
use std::rt::Env;

/// How many bytes of a word are tried first.
const FIRST_SIZE: usize = 256;

/// How often the size is doubled at most. The system passes no word of 2^30 bytes.
const MOST_DOUBLINGS: u32 = 22;

/// The words after the program's name. They need not be UTF-8.
pub fn words(alloc: Global, environment: &impl Env) -> Result<Vec<Name>, NoMemory> {
    let mut words = Vec::new(alloc);
    for i in 1..usize::MAX {
        match word(alloc, environment, i)? {
            Some(word) => words.push(word)?,
            None => break,
        }
    }
    Ok(words)
}

/// The word of that number, if there are so many.
fn word(alloc: Global, environment: &impl Env, i: usize) -> Result<Option<Name>, NoMemory> {
    let mut size = FIRST_SIZE;
    for _ in 0..MOST_DOUBLINGS {
        let mut buffer = vec![in alloc; 0; size]?;
        match environment.arg(i, &mut buffer) {
            Ok(length) => {
                buffer.truncate(length);
                return Ok(Some(Bytes::from_vec(buffer)));
            }
            Err(FillError::NotPresent) => return Ok(None),
            Err(FillError::TooLong) => size = size.saturating_mul(2),
        }
    }
    Err(NoMemory)
}
