//! The arguments of a call (C90 6.8.3).

use crate::item::Item;
use crate::store::Store;
use fsc_base::NoMemory;
use pp_token::PpKind;
use std::alloc::Global;
use std::mem;

/// The arguments of a call while they are read.
#[derive(Drop)]
pub struct ArgumentList<'a> {
    alloc: Global,
    /// Those before the last comma.
    whole: Vec<Vec<Item<'a>>>,
    /// The tokens behind the last comma.
    last: Vec<Item<'a>>,
    /// How many parentheses are open besides that of the call.
    depth: usize,
    /// Whether a line has ended since the last token.
    after_line_end: bool,
}

/// What is known of a call after one more token.
#[derive(Clone, Copy, Debug, PartialEq, Eq)]
pub enum Progress {
    /// It goes on.
    Open,
    /// The token closed it.
    Closed,
    /// The token is the end of all.
    Ended,
}

impl<'a> ArgumentList<'a> {
    /// The list behind the left parenthesis. It takes no memory.
    pub fn new(alloc: Global) -> ArgumentList<'a> {
        ArgumentList {
            alloc,
            whole: Vec::new(alloc),
            last: Vec::new(alloc),
            depth: 0,
            after_line_end: false,
        }
    }

    /// Puts a token into the argument that is read.
    fn put(&mut self, store: &mut Store, token: Item<'a>) -> Result<(), NoMemory> {
        let spaced = token.spaced || self.after_line_end;
        self.after_line_end = false;
        store.put(&mut self.last, Item { spaced, ..token })
    }

    /// Ends the argument that is read.
    fn end_argument(&mut self) -> Result<(), NoMemory> {
        self.after_line_end = false;
        let argument = mem::replace(&mut self.last, Vec::new(self.alloc));
        self.whole.push(argument)?;
        Ok(())
    }

    /// Takes an operator or punctuator.
    fn take_punct(&mut self, store: &mut Store, token: Item<'a>) -> Result<Progress, NoMemory> {
        if self.depth == 0 && store.is_punct(&token, b")") {
            self.end_argument()?;
            return Ok(Progress::Closed);
        }
        if self.depth == 0 && store.is_punct(&token, b",") {
            self.end_argument()?;
            return Ok(Progress::Open);
        }
        if store.is_punct(&token, b"(") {
            self.depth = self.depth.saturating_add(1);
        } else if store.is_punct(&token, b")") {
            self.depth = self.depth.saturating_sub(1);
        }
        self.put(store, token)?;
        Ok(Progress::Open)
    }

    /// Takes the next token.
    pub fn take(&mut self, store: &mut Store, token: Item<'a>) -> Result<Progress, NoMemory> {
        match token.kind {
            PpKind::Punct => self.take_punct(store, token),
            PpKind::LineEnd => {
                self.after_line_end = true;
                Ok(Progress::Open)
            }
            PpKind::End => Ok(Progress::Ended),
            _ => {
                self.put(store, token)?;
                Ok(Progress::Open)
            }
        }
    }

    /// The arguments of a closed call, where they are as many as the parameters; an empty one is none where there are
    /// no parameters.
    pub fn fitting(self, parameter_count: usize) -> Option<Vec<Vec<Item<'a>>>> {
        let ArgumentList { alloc, whole, .. } = self;
        if parameter_count == 0 {
            return match whole.as_slice() {
                [only] if only.is_empty() => Some(Vec::new(alloc)),
                _ => None,
            };
        }
        if whole.len() == parameter_count {
            Some(whole)
        } else {
            None
        }
    }
}
