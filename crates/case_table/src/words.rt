//! The words of a line.

use crate::number::number_of;
use crate::refusal::NoStep;
use std::alloc::Global;

/// Adds a word, or as many of it as a number and `*` before it say.
fn push<'a>(words: &mut Vec<&'a str>, word: &'a str) -> Result<(), NoStep> {
    let Some((count, repeated)) = word.split_once('*') else {
        words.push(word)?;
        return Ok(());
    };
    for _ in 0..number_of(count)? {
        words.push(repeated)?;
    }
    Ok(())
}

/// Adds the first word of a text that is not blank. What is behind it. A word stands between quotes, which it may need for
/// its spaces, or up to the next space.
fn push_first<'a>(words: &mut Vec<&'a str>, text: &'a str) -> Result<&'a str, NoStep> {
    if let Some(inside) = text.strip_prefix('"') {
        let Some((word, behind)) = inside.split_once('"') else {
            return Err(NoStep::Malformed("a quote is not closed"));
        };
        words.push(word)?;
        return Ok(behind);
    }
    let (word, behind) = text.split_once(' ').unwrap_or((text, ""));
    push(words, word)?;
    Ok(behind)
}

/// The words of a text, without their quotes, and each as often as it says.
pub fn words_of<'a>(alloc: Global, text: &'a str) -> Result<Vec<&'a str>, NoStep> {
    let mut words = Vec::new(alloc);
    let mut rest = text.trim();
    for _ in 0..text.len() {
        if rest.is_empty() {
            break;
        }
        rest = push_first(&mut words, rest)?.trim_start();
    }
    Ok(words)
}
