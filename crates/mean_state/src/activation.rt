//! Activations: how a call begins and ends (C90 6.3.2.2, 6.6.6.4).

use crate::moment::{Moment, plain};
use crate::stop::Stop;
use c_ops::narrowed;
use c_tree::Conversion;
use fsc_base::{End, Word};
use mean_rows::Callee;

/// How many activations may be live.
const MOST_ACTIVATIONS: usize = 65_536;

/// An activation: where its caller goes on; where its words, slots and entry blocks begin among those of all; the next of its entry
/// blocks that ends; and the number of the block of its extra words, or 0.
#[derive(Clone, Copy, Debug)]
pub(crate) struct Activation {
    pub back: u32,
    pub words: usize,
    pub slots: usize,
    pub blocks: usize,
    pub ending: usize,
    pub extra: u32,
}

impl Activation {
    /// The one in which `main` is called.
    pub fn first() -> Activation {
        Activation {
            back: 0,
            words: 0,
            slots: 0,
            blocks: 0,
            ending: 0,
            extra: 0,
        }
    }
}

/// A word as a parameter takes it.
fn converted(conversion: Option<&Conversion>, word: Word) -> Word {
    match conversion {
        Some(Conversion::Narrow { width, is_signed }) => narrowed(*width, *is_signed, word),
        _ => word,
    }
}

impl Moment {
    /// Begins an activation of a function with so many arguments, the last ones of the words, and the called word below them. Ended
    /// where 65,536 are live. The caller goes on at `back`. Its time grows with the slots and the arguments.
    pub fn enter(&mut self, callee: &Callee, arguments: u32, back: u32) -> Result<(), Stop> {
        if MOST_ACTIVATIONS <= self.callers.len() {
            return Err(Stop::Ended(End::Depth));
        }
        let arguments = arguments as usize;
        let count = self.words.len();
        if count <= arguments {
            return Err(Stop::Misfit);
        }
        let first = count - arguments;
        let slots = self.slots.len();
        self.fill_slots(callee, first)?;
        self.keep_extra(callee, first)?;
        self.words.truncate(first - 1);
        self.begin(slots, first - 1, back)?;
        self.place = callee.start;
        Ok(())
    }

    /// The caller waits.
    fn begin(&mut self, slots: usize, words: usize, back: u32) -> Result<(), Stop> {
        self.callers.push(self.activation)?;
        let blocks = self.blocks.len();
        self.activation = Activation {
            back,
            words,
            slots,
            blocks,
            ending: blocks,
            extra: 0,
        };
        Ok(())
    }

    /// The slots of a function whose arguments begin at an index of the words: each parameter takes its word, missing ones and all
    /// other slots are 0.
    fn fill_slots(&mut self, callee: &Callee, first: usize) -> Result<(), Stop> {
        let mut at = first;
        'slots: for i in 0..callee.slots {
            let word = if i < callee.parameters {
                self.argument(callee, i, at)
            } else {
                plain(0)
            };
            self.slots.push(word)?;
            at = at.saturating_add(1);
        }
        Ok(())
    }

    /// The word of a parameter, which is at an index of the words.
    fn argument(&self, callee: &Callee, parameter: u32, at: usize) -> Word {
        match self.words.get(at) {
            Some(word) => converted(callee.conversions.get(parameter as usize), *word),
            None => plain(0),
        }
    }

    /// Keeps the words beyond the parameters of a variadic function until their block is made.
    fn keep_extra(&mut self, callee: &Callee, first: usize) -> Result<(), Stop> {
        self.extra.truncate(0);
        if callee.is_variadic {
            let from = first.saturating_add(callee.parameters as usize);
            if from < self.words.len() {
                self.extra.extend_from_slice(&self.words[from..])?;
            }
        }
        Ok(())
    }

    /// Ends the next entry block of the activation, that of the extra words first. Gives whether there was one.
    pub fn end_block(&mut self) -> Result<bool, Stop> {
        let extra = self.activation.extra;
        if extra != 0 {
            self.activation.extra = 0;
            self.kill(extra)?;
            return Ok(true);
        }
        let next = self.activation.ending;
        match self.blocks.get(next) {
            Some(block) => {
                let block = *block;
                self.activation.ending = next.saturating_add(1);
                self.kill(block)?;
                Ok(true)
            }
            None => Ok(false),
        }
    }

    /// Ends the activation: its caller goes on, with the word that the function gives.
    pub fn leave(&mut self, word: Word) -> Result<(), Stop> {
        let own = self.activation;
        let Some(caller) = self.callers.pop() else {
            return Err(Stop::Ended(End::Abort));
        };
        self.activation = caller;
        self.words.truncate(own.words);
        self.slots.truncate(own.slots);
        self.blocks.truncate(own.blocks);
        self.place = own.back;
        self.give(word)
    }
}
