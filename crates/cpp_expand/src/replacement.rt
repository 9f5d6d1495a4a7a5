//! Replacement lists as `#define` lines have them.

ghost use Rattle.std.specs.Prelude.{◌≡◌, ◌≤◌, ◌<◌, length, IfOk, IfSome};

use crate::definition::{BodyToken, Parameters, Role};
use crate::directive::is_punct;
use fsc_base::{Bytes, NoMemory};
use pp_token::{PpKind, PpToken};
use std::alloc::Global;

/// Whether a list begins with `##`.
fn begins_paste(tokens: &[PpToken]) -> bool {
    match tokens {
        [first, ..] => is_punct(first, b"##"),
        [] => false,
    }
}

/// Whether a list ends with `##`.
fn ends_paste(tokens: &[PpToken]) -> bool {
    match tokens {
        [.., last] => is_punct(last, b"##"),
        [] => false,
    }
}

/// The index of the parameter that a token names.
fn parameter_index(parameters: &Parameters, token: &PpToken) -> Option<usize> {
    if token.kind == PpKind::Name {
        parameters.get_index_of(token.text.as_slice())
    } else {
        None
    }
}

/// A replacement list that is being read.
#[derive(Drop)]
struct Reading<'p> {
    alloc: Global,
    /// Whether the macro is function-like, so that `#` is an operator.
    is_function: bool,
    parameters: &'p mut Parameters,
    list: Vec<BodyToken>,
    /// Whether the operator `##` was read last.
    after_paste: bool,
}

impl Reading<'_> {
    /// Adds a token with its role.
    fn add(&mut self, token: &PpToken, role: Role) -> Result<(), NoMemory> {
        let spaced = token.spaced && !self.list.is_empty();
        let text = Bytes::from_slice(self.alloc, token.text.as_slice())?;
        self.list.push(BodyToken {
            kind: token.kind,
            text,
            spaced,
            role,
        })?;
        self.after_paste = role == Role::Paste;
        Ok(())
    }

    /// The role of a parameter that is an operand of `#` or `##`.
    fn raw_role(&mut self, index: usize) -> Role {
        if let Some(uses) = self.parameters.get_index_mut(index) {
            uses.raw = true;
        }
        Role::Raw(index)
    }

    /// The role of a token that is no operator, where these are behind it.
    fn operand_role(&mut self, token: &PpToken, behind: &[PpToken]) -> Role {
        let Some(index) = parameter_index(self.parameters, token) else {
            return Role::Token;
        };
        if self.after_paste || begins_paste(behind) {
            return self.raw_role(index);
        }
        if let Some(uses) = self.parameters.get_index_mut(index) {
            uses.expanded = true;
        }
        Role::Expanded(index)
    }

    /// Adds `#` and the parameter behind it. The list behind both; None where there is no parameter.
    fn quote<'l>(
        &mut self,
        hash: &PpToken,
        behind: &'l [PpToken],
    ) -> Result<Option<&'l [PpToken]>, NoMemory>
        ensures { IfOk result (λ found. IfSome found (λ rest. length rest.now ≤ length behind.now)) }
    {
        let [parameter, rest @ ..] = behind else {
            return Ok(None);
        };
        let Some(index) = parameter_index(self.parameters, parameter) else {
            return Ok(None);
        };
        self.add(hash, Role::Hash)?;
        let role = self.raw_role(index);
        self.add(parameter, role)?;
        Ok(Some(rest))
    }

    /// Adds what is at the front of a list. The list behind it; None where `#` has no parameter.
    fn front<'l>(
        &mut self,
        token: &PpToken,
        behind: &'l [PpToken],
    ) -> Result<Option<&'l [PpToken]>, NoMemory>
        ensures { IfOk result (λ found. IfSome found (λ rest. length rest.now ≤ length behind.now)) }
    {
        if self.is_function && is_punct(token, b"#") {
            return self.quote(token, behind);
        }
        if is_punct(token, b"##") && !self.after_paste {
            self.add(token, Role::Paste)?;
            return Ok(Some(behind));
        }
        let role = self.operand_role(token, behind);
        self.add(token, role)?;
        Ok(Some(behind))
    }
}

/// The replacement list of a macro with these parameters, of which it marks those whose arguments are expanded. None
/// where `##` is at an end of the list, or where a function-like macro has `#` without a parameter behind it.
pub fn replacement_list(
    alloc: Global,
    is_function: bool,
    parameters: &mut Parameters,
    body: &[PpToken],
) -> Result<Option<Vec<BodyToken>>, NoMemory> {
    if begins_paste(body) || ends_paste(body) {
        return Ok(None);
    }
    let mut reading = Reading {
        alloc,
        is_function,
        parameters,
        list: Vec::new(alloc),
        after_paste: false,
    };
    let mut rest = body;
    while let [token, behind @ ..] = rest {
        let Some(after) = reading.front(token, behind)? else {
            return Ok(None);
        };
        rest = after;
    }
    Ok(Some(reading.list))
}
