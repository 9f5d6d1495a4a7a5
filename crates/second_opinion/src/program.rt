//! A case: a program, and what its runs have to be.

use crate::given::{Given, body};
use crate::wanted::Wanted;
use case_file::{Case, CaseNo, Field};
use std::alloc::Global;

/// A case: a program, and what its runs have to be.
#[derive(Drop)]
pub struct Asked {
    pub given: Given,
    pub wanted: Wanted,
}

impl Asked {
    /// The case that these fields tell. Refused where a field is none of a case, and where no unit or no end is told.
    pub fn of(alloc: Global, case: Case) -> Result<Asked, CaseNo> {
        let Case {
            name: _,
            line,
            fields,
        } = case;
        let mut asked = Asked {
            given: Given::new(alloc),
            wanted: Wanted::new(alloc),
        };
        for field in fields {
            asked.take(alloc, field)?;
        }
        if asked.given.units.is_empty() || asked.wanted.end.is_empty() {
            let why = "a program has a unit and an end";
            return Err(CaseNo::Malformed { line, why });
        }
        Ok(asked)
    }

    /// Takes a field.
    fn take(&mut self, alloc: Global, field: Field) -> Result<(), CaseNo> {
        match field.name.as_str() {
            "unit" => self.given.take_unit(alloc, field),
            "file" => self.given.take_file(alloc, field),
            "input" => {
                self.given.input = body(field);
                Ok(())
            }
            "large" => {
                self.given.is_large = true;
                Ok(())
            }
            "cost" => {
                self.given.cost = number(&field)?;
                Ok(())
            }
            _ => self.want(field),
        }
    }

    /// Takes a field that tells what must come.
    fn want(&mut self, field: Field) -> Result<(), CaseNo> {
        match field.name.as_str() {
            "end" => self.wanted.take_end(&field)?,
            "left" => self.wanted.left = number(&field)?,
            "steps" => self.wanted.steps = number(&field)?,
            "away" => self.wanted.away = number(&field)?,
            "live" => self.wanted.take_live(field.head.as_str())?,
            "output" => self.wanted.output = body(field),
            _ => return Err(field.malformed("no field of a program")),
        }
        Ok(())
    }
}

/// The number that a field tells.
fn number(field: &Field) -> Result<u64, CaseNo> {
    field.number()
}
