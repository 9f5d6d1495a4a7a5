//! The lines of a file of cases.

/// What a line is.
#[derive(Clone, Copy, Debug)]
pub enum Line<'a> {
    /// An empty line, or a comment.
    Nothing,
    /// The beginning of a case of that name.
    Case(&'a str),
    /// A field, and what stands behind its name.
    Field(&'a str, &'a str),
    /// Bytes of the field above.
    Bytes(Spelling, &'a str),
}

/// How a line spells bytes.
#[derive(Clone, Copy, Debug)]
pub enum Spelling {
    /// `| TEXT`: the text as it is, and a line feed.
    Line,
    /// `+ TEXT`: the text with its escapes.
    Escaped,
    /// `* N TEXT`: the text with its escapes, N times, where `\#` and `\+` are the number of the turn, from 0 and from 1.
    Repeated,
    /// `% HH HH ..`: bytes as pairs of hexadecimal digits.
    Hexadecimal,
}

impl<'a> Line<'a> {
    /// What a line without its line feed is.
    pub fn of(text: &'a str) -> Line<'a> {
        if text.is_empty() || text.starts_with('#') {
            return Line::Nothing;
        }
        let (name, rest) = text.split_once(' ').unwrap_or((text, ""));
        match name {
            "case" => Line::Case(rest),
            "|" => Line::Bytes(Spelling::Line, rest),
            "+" => Line::Bytes(Spelling::Escaped, rest),
            "*" => Line::Bytes(Spelling::Repeated, rest),
            "%" => Line::Bytes(Spelling::Hexadecimal, rest),
            _ => Line::Field(name, rest),
        }
    }
}
