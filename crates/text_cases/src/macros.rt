//! Macros, line by line.

use crate::refusals::{no_memory, refusal_told};
use case_file::{CaseNo, Field};
use cpp_expand::Macros;
use fsc_base::{Bytes, Refused};
use pp_token::{PpKind, pp_tokens};
use std::alloc::Global;

/// What the lines of a field give, where its head is a number and a name: the lines stand that many above their numbers in
/// the file of that name. A line `#define ..` or `#undef ..` changes the macros and gives nothing, `?NAME` gives whether it
/// is a macro, and each other line its tokens after expansion, with a space behind each. Or the rule that is broken.
pub fn macros_told(alloc: Global, field: &Field) -> Result<Vec<u8>, CaseNo> {
    let (number, name) = field.head.as_str().split_once(' ').unwrap_or(("0", ""));
    let Ok(add) = number.parse::<i64>() else {
        return Err(field.malformed("no number"));
    };
    let name = Bytes::from_vec(Vec::from_slice(alloc, name.as_bytes())?);
    let mut macros = Macros::new(alloc).map_err(no_memory)?;
    macros.locate(&name, add).map_err(no_memory)?;
    let mut text = Vec::new(alloc);
    for line in field.body.split(|byte| *byte == b'\n') {
        if let Err(refused) = take_line(alloc, &mut macros, line, &mut text) {
            return refusal_told(alloc, refused);
        }
    }
    Ok(text)
}

/// Does what a line says, and puts what it gives behind a text.
fn take_line(
    alloc: Global,
    macros: &mut Macros,
    line: &[u8],
    text: &mut Vec<u8>,
) -> Result<(), Refused> {
    if let Some(name) = line.strip_prefix(b"?") {
        let name = Bytes::from_vec(Vec::from_slice(alloc, name)?);
        let answer = if macros.is_defined(&name) {
            "yes "
        } else {
            "no "
        };
        return Ok(text.extend_from_slice(answer.as_bytes())?);
    }
    let tokens = pp_tokens(alloc, 0, 0, line)?;
    if line.starts_with(b"#define") {
        return macros.define(&tokens);
    }
    if line.starts_with(b"#undef") {
        return macros.undefine(&tokens);
    }
    for token in macros.expand(&tokens, 0)?.as_slice() {
        if token.kind != PpKind::LineEnd && token.kind != PpKind::End {
            text.extend_from_slice(token.text.as_slice())?;
            text.push(b' ')?;
        }
    }
    Ok(())
}
