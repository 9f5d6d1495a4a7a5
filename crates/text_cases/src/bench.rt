//! The fields of a case, done one after the other.

use crate::hidden::sets;
use crate::images::image_listed;
use crate::lexing::{lexed, single_lexed};
use crate::library::{header_text, unit_text};
use crate::macros::macros_told;
use crate::pieces::{kind_told, pieces, pieces_counted};
use crate::preprocessing::Unit;
use crate::requests::{decimal_told, request_told};
use case_file::{Case, CaseNo, Field};
use fsc_base::{Bytes, Name};
use std::alloc::{AllocError, Global};

/// What a case has so far.
#[derive(Drop)]
struct Bench {
    alloc: Global,
    unit: Unit,
    /// What the last question gave.
    found: Vec<u8>,
    /// The first difference from what was wanted.
    difference: Option<String>,
}

/// Does what a case says. The first difference from what it wants, if there is one. Refused where a field says nothing
/// that can be done.
pub fn difference(alloc: Global, case: Case) -> Result<Option<String>, CaseNo> {
    let Case {
        name: _,
        line,
        fields,
    } = case;
    let mut bench = Bench {
        alloc,
        unit: Unit::new(alloc),
        found: Vec::new(alloc),
        difference: None,
    };
    let mut answers = 0_u32;
    for field in fields {
        if field.name.as_str() == "gives" {
            answers = answers.saturating_add(1);
        }
        bench.take(field)?;
    }
    if answers == 0 {
        let why = "a case without an answer";
        return Err(CaseNo::Malformed { line, why });
    }
    let Bench {
        alloc: _,
        unit: _,
        found: _,
        difference,
    } = bench;
    Ok(difference)
}

impl Bench {
    /// Does what a field says.
    fn take(&mut self, field: Field) -> Result<(), CaseNo> {
        match field.name.as_str() {
            "file" => {
                let name: Name = Bytes::from_vec(field.head_bytes(self.alloc)?);
                self.unit.files.push((name, body(field)))?;
            }
            "fail" => self.unit.fail.push(field.number()?)?,
            "gives" => self.compare(&field)?,
            _ => self.found = self.answer(&field)?,
        }
        Ok(())
    }

    /// The answer to a question.
    fn answer(&mut self, field: &Field) -> Result<Vec<u8>, CaseNo> {
        let alloc = self.alloc;
        let body = field.body.as_slice();
        match field.name.as_str() {
            "pieces" => pieces(alloc, body),
            "count" => pieces_counted(alloc, body),
            "kind" => kind_told(alloc, body),
            "sets" => sets(alloc, field),
            "tokens" => lexed(alloc, body),
            "single" => single_lexed(alloc, field),
            "macros" => macros_told(alloc, field),
            "preprocess" => self.unit.spelled(alloc, field),
            "places" => self.unit.placed(alloc, field),
            "absences" => self.unit.absences_told(alloc, field),
            "header" => header_text(alloc, field),
            "library" => unit_text(alloc, field),
            "words" => request_told(alloc, field),
            "decimal" => decimal_told(alloc, field),
            "image" => image_listed(alloc, field),
            _ => Err(field.malformed("no question")),
        }
    }

    /// Compares what the last question gave with what stands in a field.
    fn compare(&mut self, field: &Field) -> Result<(), AllocError> {
        let mut wanted = Vec::from_slice(self.alloc, field.head.as_bytes())?;
        wanted.extend_from_slice(&field.body)?;
        if self.found == wanted || self.difference.is_some() {
            return Ok(());
        }
        let found = String::from_utf8_lossy(self.alloc, &self.found)?;
        let wanted = String::from_utf8_lossy(self.alloc, &wanted)?;
        let line = field.line;
        self.difference = Some(format!(in self.alloc; "line {line}: {found:?}, not {wanted:?}")?);
        Ok(())
    }
}

/// The bytes of a field.
fn body(field: Field) -> Bytes {
    let Field {
        line: _,
        name: _,
        head: _,
        body,
    } = field;
    Bytes::from_vec(body)
}
