//! Files that are open.

ghost use Rattle.std.specs.Prelude.{◌≡◌, ◌+◌, ◌^◌, ◌<◌, length, IfOk, vec_len};

use crate::section::Section;
use fsc_base::{Name, NoMemory};
use pp_token::{PpKind, PpToken, PpTokens};
use std::alloc::Global;

/// Where the reading of a file stands.
#[derive(Debug, Drop)]
pub struct Position {
    /// The name by which the file was found.
    pub name: Name,
    /// What `__FILE__` gives here.
    pub presumed: Name,
    /// What `__LINE__` adds to a token's line here.
    pub add: i64,
    /// The conditional inclusions without an `#endif` so far, the innermost last.
    pub sections: Vec<Section>,
}

impl Position {
    /// Whether the group here is read.
    pub fn is_read(&self) -> bool {
        match self.sections.last() {
            Some(section) => section.is_read(),
            None => true,
        }
    }
}

/// A file that is open.
#[derive(Debug, Drop)]
pub struct Source {
    /// How many files include it, each the one before.
    pub depth: u32,
    pub position: Position,
    /// Its tokens that are not read yet, the next one last, without its End.
    pub rest: Vec<PpToken>,
    /// Its End.
    pub end: PpToken,
}

impl Source {
    /// A file of that name and these tokens, of which the last is End.
    pub fn new(alloc: Global, depth: u32, name: Name, tokens: PpTokens) -> Result<Source, NoMemory>
        requires { 0 < length tokens }
        ensures depth { IfOk result (λ source. source.depth ≡ depth) }
        ensures bounded { IfOk result (λ source. vec_len source.rest < 2 ^ 64) }
    {
        let presumed = Name::from_slice(alloc, name.as_slice())?;
        let mut rest = tokens.into_vec();
        let Some(end) = rest.pop() else {
            unreachable!()
        };
        rest.reverse();
        Ok(Source {
            depth,
            position: Position {
                name,
                presumed,
                add: 0,
                sections: Vec::new(alloc),
            },
            rest,
            end,
        })
    }
}

/// Takes the next line, with its end where one follows, from tokens of which the next one is last. It is empty where
/// none are left.
pub fn next_line(alloc: Global, rest: &mut Vec<PpToken>) -> Result<Vec<PpToken>, NoMemory>
    ensures { IfOk result (λ line. vec_len line + vec_len rest.new ≡ vec_len rest.old) }
{
    let mut line = Vec::new(alloc);
    while let Some(token) = rest.pop() {
        let is_last = token.kind == PpKind::LineEnd;
        line.push(token)?;
        if is_last {
            break;
        }
    }
    Ok(line)
}
