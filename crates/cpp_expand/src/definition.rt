//! What names are defined as.

use fsc_base::Bytes;
use indexmap::IndexMap;
use pp_token::PpKind;

/// What a token of a replacement list is there for.
#[derive(Clone, Copy, Debug, PartialEq, Eq)]
pub enum Role {
    /// It stands for itself.
    Token,
    /// It names the parameter of this index, whose argument is put in as it is: it is an operand of `#` or `##`.
    Raw(usize),
    /// It names the parameter of this index, whose argument is expanded first.
    Expanded(usize),
    /// The operator `#`. A parameter is behind it.
    Hash,
    /// The operator `##`. It is at neither end of the list.
    Paste,
}

/// A token of a replacement list.
#[derive(Debug, Drop)]
pub struct BodyToken {
    pub kind: PpKind,
    pub text: Bytes,
    /// Whether white space stands in front of it in the list. The first token has none.
    pub spaced: bool,
    pub role: Role,
}

/// How a replacement list uses an argument.
#[derive(Clone, Copy, Debug, PartialEq, Eq)]
pub struct Uses {
    /// It asks for the argument as it is.
    pub raw: bool,
    /// It asks for what the argument expands to.
    pub expanded: bool,
}

/// The parameters of a macro, in order, and how its replacement list uses the argument of each.
pub type Parameters = IndexMap<Vec<u8>, Uses>;

/// A function-like macro.
#[derive(Debug, Drop)]
pub struct Function {
    pub parameters: Parameters,
    pub body: Vec<BodyToken>,
}

/// What a name is replaced by.
#[derive(Debug, Drop)]
pub enum Macro {
    /// An object-like macro: its replacement list.
    ObjectLike(Vec<BodyToken>),
    /// A function-like macro.
    FunctionLike(Function),
    /// `__FILE__`
    FileName,
    /// `__LINE__`
    LineNumber,
    /// `__STDC__`
    Standard,
    /// `__DATE__` or `__TIME__`
    Moment,
}

/// Whether two replacement lists have the same tokens, with the same white space between them.
fn is_same_body(a: &[BodyToken], b: &[BodyToken]) -> bool {
    a.len() == b.len()
        && a.iter().zip(b.iter()).all(|(a, b)| a.spaced == b.spaced
            && a.text.as_slice() == b.text.as_slice())
}

/// Whether two lists of parameters have the same names in the same order.
fn is_same_list(a: &Parameters, b: &Parameters) -> bool {
    a.len() == b.len()
        && a.keys()
            .zip(b.keys())
            .all(|(a, b)| a.as_slice() == b.as_slice())
}

impl Macro {
    /// Whether both are macros of one kind with the same parameters and the same replacement list (C90 6.8.3).
    pub fn is_same(&self, other: &Macro) -> bool {
        match (self, other) {
            (Macro::ObjectLike(a), Macro::ObjectLike(b)) => is_same_body(a, b),
            (Macro::FunctionLike(a), Macro::FunctionLike(b)) => {
                is_same_list(&a.parameters, &b.parameters) && is_same_body(&a.body, &b.body)
            }
            _ => false,
        }
    }

    /// Whether it is one of those that are there from the start.
    pub fn is_predefined(&self) -> bool {
        match self {
            Macro::ObjectLike(_) | Macro::FunctionLike(_) => false,
            Macro::FileName | Macro::LineNumber | Macro::Standard | Macro::Moment => true,
        }
    }
}
