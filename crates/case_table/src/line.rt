//! The lines of a table.

/// What a line of a table says.
#[derive(Clone, Copy, Debug, PartialEq, Eq)]
pub enum Line<'a> {
    /// Nothing: it is blank, or a comment.
    Nothing,
    /// A case of this name begins.
    Case(&'a str),
    /// A step, and the answer that it must give.
    Step { step: &'a str, answer: &'a str },
}

/// What a line says. A comment begins with `#`, a case with the word `case`; else it is a step, with its answer behind ` = `,
/// or `ok` where it has none.
pub fn line_of(text: &str) -> Line<'_> {
    let text = text.trim();
    if text.is_empty() || text.starts_with('#') {
        return Line::Nothing;
    }
    if let Some(name) = text.strip_prefix("case ") {
        return Line::Case(name.trim());
    }
    let (step, answer) = text.split_once(" = ").unwrap_or((text, "ok"));
    Line::Step { step, answer }
}
