//! What the tokens of one expansion share: texts that were made, hide sets, and the work that is left.

use crate::hide_sets::{HideId, HideSets};
use crate::item::{Item, Text};
use fsc_base::NoMemory;
use pp_token::PpKind;
use std::alloc::Global;

/// How much one call may do: each token that is taken or put anywhere, each byte of a text that is made, and each name of a
/// hide set that is looked at, counts as one. No C text has use for so much. A bomb of macros that expands to nothing would run for ages; it ends
/// here, as for want of memory.
pub const MOST_WORK: u64 = 1 << 30;

/// The most tokens that one list may have on the way. A unit has at most 2^20 of them in the end.
const LONGEST_LIST: usize = 1 << 24;

/// The most tokens that calls which wait for their arguments may keep together.
const MOST_HELD: usize = 1 << 24;

/// What the tokens of one expansion share.
#[derive(Drop)]
pub struct Store {
    alloc: Global,
    texts: Vec<Vec<u8>>,
    sets: HideSets,
    work_left: u64,
    /// How many tokens the calls keep that wait.
    held: usize,
}

impl Store {
    /// No texts and no hide sets. It takes no memory.
    pub fn new(alloc: Global) -> Store {
        Store {
            alloc,
            texts: Vec::new(alloc),
            sets: HideSets::new(alloc),
            work_left: MOST_WORK,
            held: 0,
        }
    }

    /// The allocator.
    pub fn alloc(&self) -> Global {
        self.alloc
    }

    /// The bytes of a text.
    pub fn bytes<'s, 'a: 's>(&'s self, text: Text<'a>) -> &'s [u8] {
        match text {
            Text::Lent(bytes) => bytes,
            Text::Made(index) => match self.texts.get(index) {
                Some(bytes) => bytes.as_slice(),
                None => b"",
            },
        }
    }

    /// Keeps a text that was made. Each of its bytes counts as work.
    pub fn keep<'a>(&mut self, bytes: Vec<u8>) -> Result<Text<'a>, NoMemory> {
        self.spend(bytes.len())?;
        let index = self.texts.len();
        self.texts.push(bytes)?;
        Ok(Text::Made(index))
    }

    /// Whether it is the operator or punctuator of this spelling.
    pub fn is_punct(&self, token: &Item<'_>, spelling: &[u8]) -> bool {
        token.kind == PpKind::Punct && self.bytes(token.text) == spelling
    }

    /// Counts work. Refused where none is left.
    pub fn spend(&mut self, work: usize) -> Result<(), NoMemory> {
        self.work_left = self.work_left.checked_sub(work as u64).ok_or(NoMemory)?;
        if self.sets.looked() > MOST_WORK {
            return Err(NoMemory);
        }
        Ok(())
    }

    /// Puts a token at the end of a list.
    pub fn put<'a>(&mut self, list: &mut Vec<Item<'a>>, token: Item<'a>) -> Result<(), NoMemory> {
        self.spend(1)?;
        if list.len() >= LONGEST_LIST {
            return Err(NoMemory);
        }
        list.push(token)?;
        Ok(())
    }

    /// Puts tokens at the end of a list.
    pub fn put_all<'a>(
        &mut self,
        list: &mut Vec<Item<'a>>,
        tokens: &[Item<'a>],
    ) -> Result<(), NoMemory> {
        self.spend(tokens.len())?;
        if tokens.len() > LONGEST_LIST.saturating_sub(list.len()) {
            return Err(NoMemory);
        }
        Ok(list.extend_from_slice(tokens)?)
    }

    /// Counts tokens that a call which waits keeps. Refused where there are too many.
    pub fn hold(&mut self, count: usize) -> Result<(), NoMemory> {
        self.held = self.held.saturating_add(count);
        if self.held > MOST_HELD {
            return Err(NoMemory);
        }
        Ok(())
    }

    /// Tokens that were counted are kept no more.
    pub fn release(&mut self, count: usize) {
        self.held = self.held.saturating_sub(count);
    }

    /// Whether a hide set has the macro of this index.
    pub fn is_hidden(&mut self, hide: HideId, name: usize) -> bool {
        self.sets.has(hide, name)
    }

    /// The hide set, and the macro of this index.
    pub fn hide_with(&mut self, hide: HideId, name: usize) -> Result<HideId, NoMemory> {
        self.sets.with(hide, name)
    }

    /// The macros of either hide set.
    pub fn hide_with_all(&mut self, hide: HideId, more: HideId) -> Result<HideId, NoMemory> {
        self.sets.with_all(hide, more)
    }

    /// The macros that both hide sets have.
    pub fn hide_in_both(&mut self, a: HideId, b: HideId) -> Result<HideId, NoMemory> {
        self.sets.in_both(a, b)
    }
}
