//! Tokens of texts.

use crate::refusals::refusal_told;
use c_lexer::{Token, TokenKind, Tokens, tokens};
use case_file::{CaseNo, Field};
use fsc_base::{Bytes, Place};
use pp_token::{HideSet, Names, PpKind, PpToken, PpTokens, PpUnit, pp_tokens};
use std::alloc::{AllocError, Global};

/// The tokens of a text, parted by commas, each behind its line. Or the rule that they break, with its line.
pub fn lexed(alloc: Global, text: &[u8]) -> Result<Vec<u8>, CaseNo> {
    match pp_tokens(alloc, 0, 0, text) {
        Ok(list) => unit_lexed(alloc, list),
        Err(refused) => refusal_told(alloc, refused),
    }
}

/// The same of a string on line 1 and one preprocessing token on line 2, of the kind that the field names and of its bytes.
pub fn single_lexed(alloc: Global, field: &Field) -> Result<Vec<u8>, CaseNo> {
    let kind = match field.head.as_str() {
        "Header" => PpKind::Header,
        "Char" => PpKind::Char,
        "Punct" => PpKind::Punct,
        "Other" => PpKind::Other,
        _ => return Err(field.malformed("no kind")),
    };
    let list = vec![in alloc;
        piece(alloc, PpKind::Str, b"\"a\"", 1)?,
        piece(alloc, kind, &field.body, 2)?,
        piece(alloc, PpKind::End, b"", 3)?,
    ]?;
    unit_lexed(alloc, PpTokens::from_vec(list))
}

/// A preprocessing token on a line.
fn piece(alloc: Global, kind: PpKind, text: &[u8], line: u32) -> Result<PpToken, AllocError> {
    Ok(PpToken {
        kind,
        text: Bytes::from_vec(Vec::from_slice(alloc, text)?),
        place: Place {
            unit: 0,
            file: 0,
            line,
        },
        spaced: false,
        hide: HideSet::new(alloc),
    })
}

/// The tokens of a unit of these preprocessing tokens.
fn unit_lexed(alloc: Global, list: PpTokens) -> Result<Vec<u8>, CaseNo> {
    let unit = PpUnit {
        tokens: list,
        opened: Names::from_vec(Vec::new(alloc)),
    };
    match tokens(alloc, &unit) {
        Ok(tokens) => Ok(listed(alloc, &tokens)?),
        Err(refused) => refusal_told(alloc, refused),
    }
}

/// Those tokens as one text.
fn listed(alloc: Global, tokens: &Tokens) -> Result<Vec<u8>, AllocError> {
    let mut bytes = Vec::new(alloc);
    for token in tokens.as_slice() {
        if !bytes.is_empty() {
            bytes.extend_from_slice(b", ")?;
        }
        push_token(alloc, &mut bytes, token)?;
    }
    Ok(bytes)
}

/// Puts a token behind the others.
fn push_token(alloc: Global, bytes: &mut Vec<u8>, token: &Token) -> Result<(), AllocError> {
    let line = token.place.line;
    let (told, spelled) = match &token.kind {
        TokenKind::Name(name) => (format!(in alloc; "{line}:Name ")?, Some(name)),
        TokenKind::Str(string) => (format!(in alloc; "{line}:Str ")?, Some(string)),
        TokenKind::Keyword(keyword) => (format!(in alloc; "{line}:Keyword {keyword:?}")?, None),
        TokenKind::Int(value, basic) => (format!(in alloc; "{line}:Int {value} {basic:?}")?, None),
        TokenKind::Char(value) => (format!(in alloc; "{line}:Char {value}")?, None),
        TokenKind::Punct(punctuator) => (format!(in alloc; "{line}:Punct {punctuator:?}")?, None),
        TokenKind::End => (format!(in alloc; "{line}:End")?, None),
    };
    bytes.extend_from_slice(told.as_bytes())?;
    if let Some(spelled) = spelled {
        bytes.extend_from_slice(spelled.as_slice())?;
    }
    Ok(())
}
