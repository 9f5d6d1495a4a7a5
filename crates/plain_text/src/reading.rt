//! From texts to programs.

ghost use Rattle.std.specs.Prelude.{◌≡◌, ℕ, List, IfOk, Some};
ghost use Rattle.plain_text.specs.declared.program.Program.{Program};
ghost use Rattle.plain_text.specs.Program.{IsPlain, Reads, opening};
ghost use Rattle.plain_text.specs.Reading.{Finds, Gives, tokens_at, call_at, calls_at, closing_at, program_at};

use crate::number::number;
use crate::program::{Program, ReadNo};
use crate::token::{after_token, skip_blanks};
use fsc_base::{Bytes, NoMemory};
use std::alloc::Global;

/// The most bytes of a text that is read.
const MOST_BYTES: usize = 1 << 24;

/// The most calls of a program that is read.
const MOST_CALLS: usize = 1000;

/// The text behind `int main ( void ) {`.
fn opening(text: &[u8]) -> Option<&[u8]>
    ensures { Finds (λ rest. rest.now) result (tokens_at opening (Some text.now)) }
{
    let text = after_token(text, b"int", 1)?;
    let text = after_token(text, b"main", 0)?;
    let text = after_token(text, b"(", 0)?;
    let text = after_token(text, b"void", 0)?;
    let text = after_token(text, b")", 0)?;
    after_token(text, b"{", 0)
}

/// The number in `putchar ( NUM ) ;`, and the text behind it.
#[tactic(auto, unfolding(crate::specs::Reading::call_at))]
fn call(text: &[u8]) -> Option<(u8, &[u8])>
    ensures { Finds (λ found. (found.0, found.1.now)) result (call_at text.now) }
{
    let text = after_token(text, b"putchar", 0)?;
    let text = after_token(text, b"(", 0)?;
    let (byte, text) = number(text)?;
    let text = after_token(text, b")", 0)?;
    let text = after_token(text, b";", 0)?;
    Some((byte, text))
}

/// The numbers in the calls at the front of `text`, up to the most, and the text behind them.
fn calls(alloc: Global, text: &[u8]) -> Result<(Bytes, &[u8]), NoMemory>
    ensures { IfOk result (λ found. (found.0, found.1.now) ≡ calls_at 1000 text.now) }
{
    let mut bytes = Vec::new(alloc);
    let mut rest = text;
    for _ in 0..MOST_CALLS {
        let Some((byte, after)) = call(rest) else {
            break;
        };
        bytes.push(byte)?;
        rest = after;
    }
    Ok((Bytes::from_vec(bytes), rest))
}

/// The number in `return NUM ; }`, where nothing stands behind it.
#[tactic(auto, unfolding(crate::specs::Reading::closing_at))]
fn closing(text: &[u8]) -> Option<u8>
    ensures { result ≡ closing_at text.now }
{
    let text = after_token(text, b"return", 1)?;
    let (status, text) = number(text)?;
    let text = after_token(text, b";", 0)?;
    let text = after_token(text, b"}", 0)?;
    if text.is_empty() { Some(status) } else { None }
}

/// The program that is spelled by all of `text`.
#[tactic(auto, unfolding(crate::specs::Reading::program_at))]
fn program(alloc: Global, text: &[u8]) -> Result<Program, ReadNo>
    ensures { Gives result (program_at text.now) }
{
    if text.len() > MOST_BYTES {
        return Err(ReadNo::NotPlain);
    }
    let text = opening(skip_blanks(text)).ok_or(ReadNo::NotPlain)?;
    let (bytes, text) = calls(alloc, text)?;
    let status = closing(text).ok_or(ReadNo::NotPlain)?;
    Ok(Program { bytes, status })
}

/// The program that a text is, in the one form that is built: `int main ( void ) {`, up to 1,000 times
/// `putchar ( NUM ) ;`, and `return NUM ; }`, with decimals from 0 to 255 and any blanks between the tokens, at least
/// one behind `int` and behind `return`, and at most 2^24 bytes. Refuses as `NotPlain` each other text, and none of
/// these, and as `NoMemory` where no memory is left for the bytes.
pub fn read_program(alloc: Global, text: &[u8]) -> Result<Program, ReadNo>
    // What is read is a program with this text.
    ensures found { IfOk result (λ program. IsPlain text.now program) }
    // A program with this text is read, unless memory runs out.
    ensures only { (program : Program) → IsPlain text.now program → Reads result program }
{
    program(alloc, text)
}

/// No text is that of two programs.
pub fn one_program()
    ensures { (text : List ℕ) (p q : Program) → IsPlain text p → IsPlain text q → p ≡ q }
{}
