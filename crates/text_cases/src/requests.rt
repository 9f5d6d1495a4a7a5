//! Requests of command lines, and decimals.

use crate::refusals::no_memory;
use case_file::{CaseNo, Field};
use command_line::{Names, Request, WordsNo, request_of};
use fsc_base::{Name, NoMemory};
use plain_text::decimal_number;
use std::alloc::{AllocError, Global};

/// What the words of a field ask for, as one line: the command and its values in the order of their fields. The words are
/// those of its line and its bytes together, parted by single spaces.
pub fn request_told(alloc: Global, field: &Field) -> Result<Vec<u8>, CaseNo> {
    let mut text = field.head_bytes(alloc)?;
    text.extend_from_slice(&field.body)?;
    let words = words_of(alloc, &text).map_err(no_memory)?;
    match request_of(alloc, &words) {
        Ok(request) => Ok(line_of(alloc, &request)?.into_bytes()),
        Err(WordsNo::Usage) => Ok(Vec::from_slice(alloc, b"usage")?),
        Err(WordsNo::NoMemory) => Err(CaseNo::NoMemory),
    }
}

/// The words of a text, which are parted by single spaces.
fn words_of(alloc: Global, text: &[u8]) -> Result<Vec<Name>, NoMemory> {
    let mut words = Vec::new(alloc);
    for word in text.split(|byte| *byte == b' ') {
        words.push(Name::from_slice(alloc, word)?)?;
    }
    Ok(words)
}

/// A request as one line.
fn line_of(alloc: Global, request: &Request) -> Result<String, AllocError> {
    match request {
        Request::Build { image, files } => {
            joined(format!(in alloc; "build {}", text_of(image))?, files)
        }
        Request::Compile { unit, file } => {
            format!(in alloc; "compile {} {}", text_of(unit), text_of(file))
        }
        Request::Link { image, units } => {
            joined(format!(in alloc; "link {}", text_of(image))?, units)
        }
        Request::Run {
            steps,
            stats,
            image,
        } => format!(in alloc; "run {steps} {stats} {}", text_of(image)),
        Request::Go {
            steps,
            stats,
            files,
        } => joined(format!(in alloc; "go {steps} {stats}")?, files),
        Request::Mean { cost, files } => joined(format!(in alloc; "mean {cost}")?, files),
        Request::Report { steps, files } => joined(format!(in alloc; "report {steps}")?, files),
        Request::Demo { count } => format!(in alloc; "demo {count}"),
    }
}

/// A name as text.
fn text_of(name: &Name) -> &str {
    str::from_utf8(name.as_slice()).unwrap_or("?")
}

/// The text with the names behind it.
fn joined(text: String, names: &Names) -> Result<String, AllocError> {
    let mut line = text;
    for name in names.as_slice() {
        line.push_str(" ")?;
        line.push_str(text_of(name))?;
    }
    Ok(line)
}

/// The number that a field's bytes are the decimal of, up to the one of its head, if there is one.
pub fn decimal_told(alloc: Global, field: &Field) -> Result<Vec<u8>, CaseNo> {
    let number = decimal_number(&field.body, field.number()?);
    Ok(format!(in alloc; "{number:?}")?.into_bytes())
}
