//! The labels of a `switch` (C90 6.6.1, 6.6.4.2).

use crate::refusal::RowsNo;
use crate::row::Act;
use crate::statement::Around;
use crate::translator::Translator;

/// A label of a `switch`: its value, or none for `default`, and its place.
#[derive(Clone, Copy)]
pub(crate) struct Case {
    value: Option<u32>,
    at: u32,
}

/// The place of `default` among labels, or else that behind the `switch`.
fn default_place(cases: &[Case], next: u32) -> u32 {
    let mut to = next;
    'cases: for case in cases {
        if case.value.is_none() {
            to = case.at;
        }
    }
    to
}

impl Translator<'_> {
    /// A label of the innermost `switch`, before the statement at a place. Labels come from the last one to the first one.
    pub(crate) fn case(
        &mut self,
        value: Option<u32>,
        around: Around,
        next: u32,
    ) -> Result<u32, RowsNo> {
        if !around.is_in_switch {
            return Err(RowsNo::Misfit);
        }
        let at = self.push(Act::Here, next)?;
        self.cases.push(Case { value, at })?;
        Ok(at)
    }

    /// The test of a label, before those of the labels behind it.
    fn select(&mut self, case: Case, behind: u32) -> Result<u32, RowsNo> {
        match case.value {
            Some(value) => self.push(Act::Selects { value, to: case.at }, behind),
            None => Ok(behind),
        }
    }

    /// The tests of the labels from an index on, which are dropped: in order of text, and last of all `default`.
    pub(crate) fn selects(&mut self, first: usize, next: u32) -> Result<u32, RowsNo> {
        let own = if first <= self.cases.len() {
            self.cases.split_off(first)?
        } else {
            return Err(RowsNo::Misfit);
        };
        let mut test = self.push(Act::SelectsDefault, default_place(&own, next))?;
        'cases: for case in &own {
            test = self.select(*case, test)?;
        }
        Ok(test)
    }
}
