//! Reading a file of cases.

use crate::case::{Case, Field};
use crate::escape::{EscapeNo, unescaped};
use crate::line::{Line, Spelling};
use crate::refusal::CaseNo;
use hex::FromHexError;
use std::alloc::Global;

/// A line's number, from 1, which a refusal names.
#[derive(Clone, Copy)]
struct Number(u32);

impl Number {
    /// The refusal of this line, for that reason.
    fn malformed(self, why: &'static str) -> CaseNo {
        CaseNo::Malformed { line: self.0, why }
    }

    /// The refusal of an escape on this line.
    fn bad_escape(self, error: EscapeNo) -> CaseNo {
        match error {
            EscapeNo::NoEscape => self.malformed("no such escape"),
            EscapeNo::NoMemory => CaseNo::NoMemory,
        }
    }
}

/// The cases of a file, in the order in which they stand. Refused at the first line that is malformed: a file that is not
/// UTF-8 at line 1, a field before a case, bytes before a field, an escape or hexadecimal digits that are none, and a
/// count that is none.
pub fn read_cases(alloc: Global, bytes: &[u8]) -> Result<Vec<Case>, CaseNo> {
    let Ok(text) = str::from_utf8(bytes) else {
        return Err(Number(1).malformed("not UTF-8"));
    };
    let mut cases = Vec::new(alloc);
    let mut number = 0_u32;
    for line in text.lines() {
        number = number.saturating_add(1);
        take_line(alloc, &mut cases, Line::of(line), Number(number))?;
    }
    Ok(cases)
}

/// Puts what a line holds behind the cases so far.
fn take_line(
    alloc: Global,
    cases: &mut Vec<Case>,
    line: Line<'_>,
    number: Number,
) -> Result<(), CaseNo> {
    match line {
        Line::Nothing => Ok(()),
        Line::Case(name) => Ok(cases.push(new_case(alloc, name, number)?)?),
        Line::Field(name, head) => {
            let field = new_field(alloc, name, head, number)?;
            let Some(case) = cases.last_mut() else {
                return Err(number.malformed("a field before a case"));
            };
            Ok(case.fields.push(field)?)
        }
        Line::Bytes(spelling, text) => {
            let bytes = spelled(alloc, spelling, text, number)?;
            let Some(field) = cases.last_mut().and_then(|case| case.fields.last_mut()) else {
                return Err(number.malformed("bytes before a field"));
            };
            Ok(field.body.extend_from_slice(&bytes)?)
        }
    }
}

/// A case without fields.
fn new_case(alloc: Global, name: &str, number: Number) -> Result<Case, CaseNo> {
    if name.is_empty() {
        return Err(number.malformed("a case without a name"));
    }
    Ok(Case {
        name: String::from_str(alloc, name)?,
        line: number.0,
        fields: Vec::new(alloc),
    })
}

/// A field without bytes.
fn new_field(alloc: Global, name: &str, head: &str, number: Number) -> Result<Field, CaseNo> {
    Ok(Field {
        line: number.0,
        name: String::from_str(alloc, name)?,
        head: String::from_str(alloc, head)?,
        body: Vec::new(alloc),
    })
}

/// The bytes that a line spells.
fn spelled(
    alloc: Global,
    spelling: Spelling,
    text: &str,
    number: Number,
) -> Result<Vec<u8>, CaseNo> {
    match spelling {
        Spelling::Line => {
            let mut bytes = Vec::from_slice(alloc, text.as_bytes())?;
            bytes.push(b'\n')?;
            Ok(bytes)
        }
        Spelling::Escaped => unescaped(alloc, text).map_err(|error| number.bad_escape(error)),
        Spelling::Repeated => repeated(alloc, text, number),
        Spelling::Hexadecimal => hexadecimal(alloc, text, number),
    }
}

/// The bytes of a count and a text, the text so often. In the text `\#` stands for the number of the turn, from 0, and `\+`
/// for the same from 1.
fn repeated(alloc: Global, text: &str, number: Number) -> Result<Vec<u8>, CaseNo> {
    let (count, text) = text.split_once(' ').unwrap_or((text, ""));
    let Ok(count) = count.parse::<u32>() else {
        return Err(number.malformed("no count"));
    };
    if text.contains("\\#") || text.contains("\\+") {
        return numbered(alloc, count, text, number);
    }
    let piece = unescaped(alloc, text).map_err(|error| number.bad_escape(error))?;
    let mut bytes = Vec::new(alloc);
    for _ in 0..count {
        bytes.extend_from_slice(&piece)?;
    }
    Ok(bytes)
}

/// The bytes of a text so often, with the number of each turn in it.
fn numbered(alloc: Global, count: u32, text: &str, number: Number) -> Result<Vec<u8>, CaseNo> {
    let mut bytes = Vec::new(alloc);
    for turn in 0..count {
        let from_0 = turn.to_string(alloc)?;
        let from_1 = (turn + 1).to_string(alloc)?;
        let text = text.replace(alloc, "\\#", from_0.as_str())?;
        let text = text.as_str().replace(alloc, "\\+", from_1.as_str())?;
        let piece = unescaped(alloc, text.as_str()).map_err(|error| number.bad_escape(error))?;
        bytes.extend_from_slice(&piece)?;
    }
    Ok(bytes)
}

/// The bytes of pairs of hexadecimal digits, where white space may stand between pairs.
fn hexadecimal(alloc: Global, text: &str, number: Number) -> Result<Vec<u8>, CaseNo> {
    let mut bytes = Vec::new(alloc);
    for word in text.split_whitespace() {
        match hex::decode(alloc, word) {
            Ok(part) => bytes.extend_from_slice(&part)?,
            Err(FromHexError::OutOfMemory) => return Err(CaseNo::NoMemory),
            Err(_) => return Err(number.malformed("no hexadecimal digits")),
        }
    }
    Ok(bytes)
}
