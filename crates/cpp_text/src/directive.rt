//! Which lines are directives, and which ones (C90 6.8).

ghost use Rattle.std.specs.Prelude.{◌≤◌, length, IfSome};
ghost use Rattle.cpp_text.specs.Directives.{IfCondition};

use fsc_base::Place;
use pp_token::{PpKind, PpToken};

/// A directive, by the name behind its `#`.
#[derive(Clone, Copy, Debug, PartialEq, Eq)]
pub enum Directive {
    Section(SectionDirective),
    Control(ControlDirective),
}

/// A line that begins, divides or ends a conditional inclusion.
#[derive(Clone, Copy, Debug, PartialEq, Eq)]
pub enum SectionDirective {
    If,
    Ifdef,
    Ifndef,
    Elif,
    Else,
    Endif,
}

/// Any other directive.
#[derive(Clone, Copy, Debug, PartialEq, Eq)]
pub enum ControlDirective {
    Define,
    Undef,
    Include,
    Line,
    Error,
    Pragma,
    /// A `#` alone on its line.
    Empty,
    /// Any other token behind the `#`.
    Unknown,
}

/// Whether it is the `#` that begins a directive.
fn is_hash(token: &PpToken) -> bool {
    token.kind == PpKind::Punct && token.text.as_slice() == b"#".as_slice()
}

/// The directive of that name.
fn named(name: &[u8]) -> Directive {
    match name {
        b"if" => Directive::Section(SectionDirective::If),
        b"ifdef" => Directive::Section(SectionDirective::Ifdef),
        b"ifndef" => Directive::Section(SectionDirective::Ifndef),
        b"elif" => Directive::Section(SectionDirective::Elif),
        b"else" => Directive::Section(SectionDirective::Else),
        b"endif" => Directive::Section(SectionDirective::Endif),
        b"define" => Directive::Control(ControlDirective::Define),
        b"undef" => Directive::Control(ControlDirective::Undef),
        b"include" => Directive::Control(ControlDirective::Include),
        b"line" => Directive::Control(ControlDirective::Line),
        b"error" => Directive::Control(ControlDirective::Error),
        b"pragma" => Directive::Control(ControlDirective::Pragma),
        _ => Directive::Control(ControlDirective::Unknown),
    }
}

/// The directive with that token behind its `#`.
fn begun(first: &PpToken) -> Directive {
    match first.kind {
        PpKind::LineEnd | PpKind::End => Directive::Control(ControlDirective::Empty),
        PpKind::Name => named(first.text.as_slice()),
        _ => Directive::Control(ControlDirective::Unknown),
    }
}

/// The directive that the line is and the place of its `#`, or None where the line is text.
pub fn directive_of(line: &[PpToken]) -> Option<(Directive, Place)>
    ensures { IfSome result (λ found. IfCondition found.0 (2 ≤ length line.now)) }
{
    match line {
        [hash] if is_hash(hash) => Some((Directive::Control(ControlDirective::Empty), hash.place)),
        [hash, first, ..] if is_hash(hash) => Some((begun(first), hash.place)),
        _ => None,
    }
}

/// What stands behind a directive's name, up to the end of its line.
pub fn operands(line: &[PpToken]) -> &[PpToken] {
    match line {
        [_, _, inner @ .., last] if last.kind == PpKind::LineEnd => inner,
        [_, _, rest @ ..] => rest,
        _ => &[],
    }
}
