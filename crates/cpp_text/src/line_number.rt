//! The line `#line` (C90 6.8.4).

ghost use Rattle.std.specs.Prelude.{IfErr, IfOk};
ghost use Rattle.cpp_expand.specs.Causes.{Refuses};
ghost use Rattle.cpp_text.specs.Causes.{OfText};
ghost use Rattle.cpp_text.specs.Contents.{IsContent};

use crate::directive::operands;
use crate::header_name::copies;
use crate::refusal::broken;
use c_lexer::add_string;
use cpp_expand::Macros;
use fsc_base::{Name, NoMemory, Place, Refused, Rule};
use pp_token::{PpKind, PpToken};
use std::alloc::Global;

/// The greatest number of a `#line` line.
const MOST: u64 = 2_147_483_647;

/// What a `#line` line says.
#[derive(Debug, Drop)]
pub struct LineNumber {
    /// The number of the next line, from 1 to 2147483647.
    pub number: u32,
    /// The file's name from there on, where the line has one.
    pub name: Option<Name>,
}

/// The decimal number that the digits spell, where it is from 1 to 2147483647.
fn line_number(digits: &[u8]) -> Option<u32> {
    let mut number: u64 = 0;
    for digit in digits {
        if !digit.is_ascii_digit() {
            return None;
        }
        number = number
            .saturating_mul(10)
            .saturating_add(u64::from(*digit - b'0'));
    }
    if (1..=MOST).contains(&number) {
        u32::try_from(number).ok()
    } else {
        None
    }
}

/// The bytes of a string literal. None where it is wide or has an escape sequence that is none.
fn string_content(alloc: Global, string: &PpToken) -> Result<Option<Name>, NoMemory>
    ensures { IfOk result (IsContent string.now.text) }
{
    let mut name = Vec::new(alloc);
    match add_string(&mut name, string.text.as_slice(), string.place) {
        Ok(()) => Ok(Some(Name::from_vec(name))),
        Err(Refused::Broken(_)) => Ok(None),
        Err(Refused::NoMemory) => Err(NoMemory),
    }
}

/// What expanded operands of `#line` say, or None where they are no number with an optional string.
fn read(alloc: Global, tokens: &[PpToken]) -> Result<Option<LineNumber>, Refused>
    ensures { IfErr result (Refuses OfText) }
{
    let (digits, string) = match tokens {
        [digits] => (digits, None),
        [digits, string] if string.kind == PpKind::Str => (digits, Some(string)),
        _ => return Ok(None),
    };
    if digits.kind != PpKind::Number {
        return Ok(None);
    }
    let Some(number) = line_number(digits.text.as_slice()) else {
        return Ok(None);
    };
    match string {
        None => Ok(Some(LineNumber { number, name: None })),
        Some(string) => match string_content(alloc, string)? {
            None => Ok(None),
            Some(name) => Ok(Some(LineNumber {
                number,
                name: Some(name),
            })),
        },
    }
}

/// What a `#line` line with its `#` at `hash` says after expansion. Refused by K39 where it is no number with an
/// optional string, or as expansion is.
#[tactic(auto, using(crate::proofs::Texts::of_expand))]
pub fn numbered(
    alloc: Global,
    line: &[PpToken],
    macros: &Macros,
    hash: Place,
) -> Result<LineNumber, Refused>
    ensures { IfErr result (Refuses OfText) }
{
    let expanded = macros.expand(&copies(alloc, operands(line))?, 0)?;
    read(alloc, expanded.as_slice())?.ok_or(broken(Rule::K39, hash))
}
