//! The macros that are defined.

ghost use Rattle.std.specs.Prelude.{◌≡◌, pos, ◌+ℤ◌, IfErr, OnOk, OnErr};
ghost use Rattle.cpp_expand.specs.Causes.{Refuses, RefusesAt, OfDefine, OfUndefine, OfExpand, place_of_line};
ghost use Rattle.cpp_expand.specs.Known.{is_macro, SameMacros, Located};

use crate::definition::Macro;
use crate::directive::{broken, described, subject};
use crate::machine::expanded;
use fsc_base::{Bytes, Name, NoMemory, Refused, Rule};
use indexmap::IndexMap;
use pp_token::PpTokens;
use std::alloc::Global;

/// The macros that are defined at a place of a text, and what `__FILE__` and `__LINE__` give there.
#[derive(Drop)]
pub struct Macros {
    alloc: Global,
    table: IndexMap<Vec<u8>, Macro>,
    file: Bytes,
    shift: i64,
}

/// The names that no line defines or takes away, besides `defined`.
fn predefined(alloc: Global) -> Result<IndexMap<Vec<u8>, Macro>, NoMemory> {
    let mut table = IndexMap::new(alloc);
    table.insert(Vec::from_slice(alloc, b"__FILE__")?, Macro::FileName)?;
    table.insert(Vec::from_slice(alloc, b"__LINE__")?, Macro::LineNumber)?;
    table.insert(Vec::from_slice(alloc, b"__STDC__")?, Macro::Standard)?;
    table.insert(Vec::from_slice(alloc, b"__DATE__")?, Macro::Moment)?;
    table.insert(Vec::from_slice(alloc, b"__TIME__")?, Macro::Moment)?;
    Ok(table)
}

impl Macros {
    /// The predefined macros alone, as at the start of a unit: `__FILE__` gives the empty name, and `__LINE__` adds 0.
    /// Refused only for want of memory.
    pub fn new(alloc: Global) -> Result<Macros, NoMemory> {
        Ok(Macros {
            alloc,
            table: predefined(alloc)?,
            file: Bytes::from_slice(alloc, b"")?,
            shift: 0,
        })
    }

    /// Sets the name that `__FILE__` gives from here on, and what `__LINE__` adds to the line of its token. Takes an
    /// `add` from -2^32 to 2^32. Refused only for want of memory.
    pub fn locate(&mut self, name: &Name, add: i64) -> Result<(), NoMemory>
        ensures ok { OnOk result (Located name.now add self.old self.new) }
        ensures err { OnErr result (self.new ≡ self.old) }
    {
        self.file = Bytes::from_slice(self.alloc, name.as_slice())?;
        self.shift = add;
        Ok(())
    }

    /// Whether a name may stand in a `#define` or `#undef` line (C90 6.8.8).
    fn is_free(&self, name: &[u8]) -> bool {
        if name == b"defined".as_slice() {
            return false;
        }
        match self.table.get(name) {
            Some(known) => !known.is_predefined(),
            None => true,
        }
    }

    /// Defines what a `#define` line describes. Takes the tokens of the whole line, its `#` first, with or without its
    /// end. Broken K37 where the line is malformed or names `defined` or a predefined macro, and K36 where the name is
    /// another macro already (C90 6.8.3); the place is that of the `#`. After a refusal nothing has changed.
    pub fn define(&mut self, line: &PpTokens) -> Result<(), Refused>
        ensures cause { IfErr result (RefusesAt OfDefine (place_of_line line.now)) }
        ensures err { OnErr result (SameMacros self.old self.new) }
    {
        let line = line.as_slice();
        let Some((name, rest)) = subject(line, b"define") else {
            return Err(broken(Rule::K37, line));
        };
        if !self.is_free(name) {
            return Err(broken(Rule::K37, line));
        }
        let Some(described) = described(self.alloc, rest)? else {
            return Err(broken(Rule::K37, line));
        };
        if let Some(known) = self.table.get(name) {
            return if known.is_same(&described) {
                Ok(())
            } else {
                Err(broken(Rule::K36, line))
            };
        }
        self.table
            .insert(Vec::from_slice(self.alloc, name)?, described)?;
        Ok(())
    }

    /// Takes away the macro that an `#undef` line names, if there is one. Takes the tokens of the whole line, its `#`
    /// first, with or without its end. Broken K37 where the line is malformed or names `defined` or a predefined macro;
    /// the place is that of the `#`. After a refusal nothing has changed.
    pub fn undefine(&mut self, line: &PpTokens) -> Result<(), Refused>
        ensures cause { IfErr result (RefusesAt OfUndefine (place_of_line line.now)) }
        ensures err { OnErr result (self.new ≡ self.old) }
    {
        let line = line.as_slice();
        match subject(line, b"undef") {
            Some((name, [])) if self.is_free(name) => {
                let _ = self.table.swap_remove(name);
                Ok(())
            }
            _ => Err(broken(Rule::K37, line)),
        }
    }

    /// Whether the name is a macro, a predefined one included. Takes no memory.
    pub fn is_defined(&self, name: &Name) -> bool
        ensures { result ≡ is_macro self.now name.now }
    {
        self.table.contains_key(name.as_slice())
    }

    /// The macro of a name, and its index.
    pub(crate) fn find(&self, name: &[u8]) -> Option<(usize, &Macro)> {
        let (index, _, found) = self.table.get_full(name)?;
        Some((index, found))
    }

    /// What `__FILE__` gives, without quotes.
    pub(crate) fn file(&self) -> &[u8]
        ensures { result.now ≡ self.now.file }
    {
        self.file.as_slice()
    }

    /// What `__LINE__` gives on this line of a file.
    pub(crate) fn line(&self, line: u32) -> u64 {
        i64::from(line)
            .saturating_add(self.shift)
            .max(0)
            .cast_unsigned()
    }

    /// What a list of tokens expands to (C90 6.8.3), where `before` tokens of the unit came before it, at most 2^20.
    /// Macro calls may go over several lines; ends of lines inside a call are white space, and all others stay. The
    /// answer's tokens have no hide sets, since these have served. Broken K38 where a macro call has a wrong number of
    /// arguments or no end before the list's or before End, K42 where `##` gives no preprocessing token, L15 for
    /// `__DATE__` and `__TIME__`; the place is that of the macro's name. Broken L10 at the first token that is one
    /// more than 2^20 with those before it, ends of lines and End not counted. Calls for more work than any C text has
    /// use are answered NoMemory.
    pub fn expand(&self, tokens: &PpTokens, before: u32) -> Result<PpTokens, Refused>
        ensures { IfErr result (Refuses OfExpand) }
    {
        expanded(self.alloc, self, tokens.as_slice(), before)
    }
}
