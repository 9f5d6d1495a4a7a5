//! Plain data: byte strings and the names of rules.

use crate::told::{Told, tell};
use case_table::{NoStep, bytes_of_text, text_of};
use fsc_base::{Bytes, Rule};
use std::alloc::Global;

/// The rule of that name, among some of each family.
fn rule_of(name: &str) -> Result<Rule, NoStep> {
    match name {
        "first" => Ok(Rule::K01),
        "language" => Ok(Rule::K39),
        "limit" => Ok(Rule::L16),
        "last" => Ok(Rule::M06),
        _ => Err(NoStep::Malformed("no such rule")),
    }
}

/// Does a step of plain data.
pub fn step(alloc: Global, words: &[&str]) -> Told {
    match words {
        ["rule", name] => match str::from_utf8(&rule_of(name)?.code()) {
            Ok(code) => tell(alloc, code),
            Err(_) => tell(alloc, "no text"),
        },
        ["keep", text] => {
            let copy = Bytes::from_slice(alloc, &bytes_of_text(alloc, text)?)?;
            let again = Bytes::from_vec(copy.into_vec());
            Ok(Some(text_of(alloc, again.as_slice())?))
        }
        _ => Ok(None),
    }
}
