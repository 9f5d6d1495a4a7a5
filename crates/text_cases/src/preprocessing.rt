//! Preprocessed units.

use crate::refusals::no_memory;
use case_file::{CaseNo, Field};
use cpp_text::{PpNo, preprocess};
use fsc_base::{Bytes, Name};
use fsc_outside::{Files, MemFiles};
use pp_token::{PpKind, PpToken, PpUnit};
use std::alloc::{AllocError, Global};

/// The unit's number in link order.
const UNIT: u32 = 3;

/// The files of a unit, and the numbers of their calls that fail, counted from 1.
#[derive(Drop)]
pub struct Unit {
    pub files: Vec<(Name, Bytes)>,
    pub fail: Vec<u64>,
}

impl Unit {
    /// No files, where no call fails.
    pub fn new(alloc: Global) -> Unit {
        Unit {
            files: Vec::new(alloc),
            fail: Vec::new(alloc),
        }
    }

    /// The spellings of the unit's tokens, one space between two, or why there are none. A field with bytes has the text of
    /// `t.c`; its head may name another file to preprocess.
    pub fn spelled(&mut self, alloc: Global, field: &Field) -> Result<Vec<u8>, CaseNo> {
        match self.preprocessed(alloc, field)?.0 {
            Ok(unit) => Ok(joined(alloc, &unit, Told::Spelling)?),
            Err(no) => why(alloc, no),
        }
    }

    /// The same, each spelling with the numbers of its unit and file and its line behind it, and at the end the names of the files.
    pub fn placed(&mut self, alloc: Global, field: &Field) -> Result<Vec<u8>, CaseNo> {
        match self.preprocessed(alloc, field)?.0 {
            Ok(unit) => {
                let mut text = joined(alloc, &unit, Told::Place)?;
                for name in unit.opened.as_slice() {
                    text.push(b' ')?;
                    text.extend_from_slice(name.as_slice())?;
                }
                Ok(text)
            }
            Err(no) => why(alloc, no),
        }
    }

    /// How many files were looked for and not there.
    pub fn absences_told(&mut self, alloc: Global, field: &Field) -> Result<Vec<u8>, CaseNo> {
        let absences = self.preprocessed(alloc, field)?.1;
        Ok(absences.to_string(alloc)?.into_bytes())
    }

    /// The unit, or why there is none, and how many files were absent.
    fn preprocessed(
        &mut self,
        alloc: Global,
        field: &Field,
    ) -> Result<(Result<PpUnit, PpNo>, u64), CaseNo> {
        let name = match field.head.as_str() {
            "" => Vec::from_slice(alloc, b"t.c")?,
            name => Vec::from_slice(alloc, name.as_bytes())?,
        };
        let name = Bytes::from_vec(name);
        if !field.body.is_empty() {
            let text = Bytes::from_vec(Vec::from_slice(alloc, &field.body)?);
            let copy = Bytes::from_vec(Vec::from_slice(alloc, name.as_slice())?);
            self.files.push((copy, text))?;
        }
        let mut files = MemFiles::new(alloc, &self.files, &self.fail).map_err(no_memory)?;
        let unit = preprocess(alloc, &mut files, UNIT, &name);
        Ok((unit, files.absences()))
    }
}

/// What is told of a token.
#[derive(Clone, Copy)]
enum Told {
    Spelling,
    /// Its spelling, and the numbers of its unit and file and its line.
    Place,
}

/// The tokens of a unit but the ends of its lines and its own, one space between two.
fn joined(alloc: Global, unit: &PpUnit, told: Told) -> Result<Vec<u8>, AllocError> {
    let mut text = Vec::new(alloc);
    for token in unit.tokens.as_slice() {
        if token.kind != PpKind::LineEnd && token.kind != PpKind::End {
            if !text.is_empty() {
                text.push(b' ')?;
            }
            push_token(alloc, &mut text, token, told)?;
        }
    }
    Ok(text)
}

/// Puts what is told of a token behind a text.
fn push_token(
    alloc: Global,
    text: &mut Vec<u8>,
    token: &PpToken,
    told: Told,
) -> Result<(), AllocError> {
    text.extend_from_slice(token.text.as_slice())?;
    match told {
        Told::Spelling => Ok(()),
        Told::Place => {
            let place = token.place;
            let place = format!(in alloc; "@{}:{}:{}", place.unit, place.file, place.line)?;
            text.extend_from_slice(place.as_bytes())
        }
    }
}

/// Why a unit was refused: the rule with the file, its number and the line, or the name of a file.
fn why(alloc: Global, no: PpNo) -> Result<Vec<u8>, CaseNo> {
    match no {
        PpNo::Broken(broken, name) => {
            let (rule, place) = (broken.rule, broken.place);
            let mut text = format!(in alloc;
                "{rule:?} {} {} ",
                place.file, place.line
            )?.into_bytes();
            text.extend_from_slice(name.as_slice())?;
            Ok(text)
        }
        PpNo::Missing => Ok(Vec::from_slice(alloc, b"missing")?),
        PpNo::FileFault(name) => {
            let mut text = Vec::from_slice(alloc, b"fault ")?;
            text.extend_from_slice(name.as_slice())?;
            Ok(text)
        }
        PpNo::NoMemory => Err(CaseNo::NoMemory),
    }
}
