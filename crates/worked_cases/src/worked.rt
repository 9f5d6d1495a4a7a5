//! A case: what is handed to the tool, and what must come.

use crate::given::Given;
use crate::images::file_of_code;
use crate::wanted::Wanted;
use case_file::{Case, CaseNo, Field};
use fsc_base::{Bytes, Name};
use std::alloc::Global;

/// A case: what is handed to the tool, and what must come.
#[derive(Debug, Drop)]
pub struct Worked {
    pub given: Given,
    pub wanted: Wanted,
}

impl Worked {
    /// The case that these fields tell. Refused where a field is none of a case, where the words don't stand once, and
    /// where nothing is said of the ending.
    pub fn of(alloc: Global, case: Case) -> Result<Worked, CaseNo> {
        let Case {
            name: _,
            line,
            fields,
        } = case;
        let malformed = |why| CaseNo::Malformed { line, why };
        let mut worked = Worked {
            given: Given::new(alloc),
            wanted: Wanted::new(alloc),
        };
        let mut lines_of_words = 0_u32;
        for field in fields {
            if field.name.as_str() == "words" {
                lines_of_words = lines_of_words.saturating_add(1);
            }
            worked.take(alloc, field)?;
        }
        if lines_of_words != 1 {
            return Err(malformed("a case has the field words once"));
        }
        if worked.wanted.ending.is_none() && worked.wanted.status.is_none() {
            return Err(malformed("neither an ending nor a status"));
        }
        Ok(worked)
    }

    /// Takes a field.
    fn take(&mut self, alloc: Global, field: Field) -> Result<(), CaseNo> {
        match field.name.as_str() {
            "first" => self.given.take_first(alloc, &field),
            "words" => self.given.take_words(alloc, &field),
            "fail" => self.given.take_failing(&field),
            "slow" => self.given.take_most(&field),
            "file" => Ok(self.given.files.push(named(alloc, field)?)?),
            "image" => {
                let code = file_of_code(alloc, &field)?;
                let name = Bytes::from_vec(field.head_bytes(alloc)?);
                Ok(self.given.files.push((name, code))?)
            }
            "input" => {
                self.given.input = body(field);
                Ok(())
            }
            _ => self.want(alloc, field),
        }
    }

    /// Takes a field that tells what must come.
    fn want(&mut self, alloc: Global, field: Field) -> Result<(), CaseNo> {
        match field.name.as_str() {
            "ending" => self.wanted.ending = Some(head(field)),
            "status" => self.wanted.status = Some(field.number()?),
            "output" => self.wanted.output = body(field),
            "note" => self.wanted.take_note(&field.head_bytes(alloc)?)?,
            "notes" => self.wanted.notes.extend_from_slice(&field.body)?,
            "left" => self.wanted.left = Some(body(field)),
            "wrote" => self.wanted.files.push(named(alloc, field)?)?,
            "same" => self.wanted.take_same(alloc, &field)?,
            "made" => self.wanted.made = true,
            _ => return Err(field.malformed("no field of a case")),
        }
        Ok(())
    }
}

/// The name that stands in a field's line, and its bytes.
fn named(alloc: Global, field: Field) -> Result<(Name, Bytes), CaseNo> {
    let name = Bytes::from_vec(field.head_bytes(alloc)?);
    Ok((name, Bytes::from_vec(body(field))))
}

/// What stands behind a field's name.
fn head(field: Field) -> String {
    let Field {
        line: _,
        name: _,
        head,
        body: _,
    } = field;
    head
}

/// The bytes of a field.
fn body(field: Field) -> Vec<u8> {
    let Field {
        line: _,
        name: _,
        head: _,
        body,
    } = field;
    body
}
