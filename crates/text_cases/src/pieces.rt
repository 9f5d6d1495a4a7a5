//! Preprocessing tokens of texts.

use crate::refusals::refusal_told;
use case_file::CaseNo;
use pp_token::{PpToken, PpTokens, kind_of, pp_tokens};
use std::alloc::{AllocError, Global};

/// The tokens of a text, one behind the other: a space where white space stands before, the kind, the line, a colon, the
/// spelling and a bar. Or the rule that it breaks, with its line.
pub fn pieces(alloc: Global, text: &[u8]) -> Result<Vec<u8>, CaseNo> {
    match pp_tokens(alloc, 0, 0, text) {
        Ok(tokens) => Ok(listed(alloc, &tokens)?),
        Err(refused) => refusal_told(alloc, refused),
    }
}

/// Those tokens as one text.
fn listed(alloc: Global, tokens: &PpTokens) -> Result<Vec<u8>, AllocError> {
    let mut bytes = Vec::new(alloc);
    for token in tokens.as_slice() {
        push_piece(alloc, &mut bytes, token)?;
    }
    Ok(bytes)
}

/// Puts a token behind the others.
fn push_piece(alloc: Global, bytes: &mut Vec<u8>, token: &PpToken) -> Result<(), AllocError> {
    let (kind, line) = (token.kind, token.place.line);
    let space = if token.spaced { " " } else { "" };
    bytes.extend_from_slice(format!(in alloc; "{space}{kind:?}{line}:")?.as_bytes())?;
    bytes.extend_from_slice(token.text.as_slice())?;
    bytes.push(b'|')?;
    Ok(())
}

/// How many tokens a text has.
pub fn pieces_counted(alloc: Global, text: &[u8]) -> Result<Vec<u8>, CaseNo> {
    match pp_tokens(alloc, 0, 0, text) {
        Ok(tokens) => Ok(tokens.as_slice().len().to_string(alloc)?.into_bytes()),
        Err(refused) => refusal_told(alloc, refused),
    }
}

/// The kind of the one token that is the whole of a text, if there is one.
pub fn kind_told(alloc: Global, text: &[u8]) -> Result<Vec<u8>, CaseNo> {
    let kind = kind_of(text);
    Ok(format!(in alloc; "{kind:?}")?.into_bytes())
}
