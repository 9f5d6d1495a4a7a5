//! The place, the words and the slots.

use crate::activation::Activation;
use crate::stop::Stop;
use byte_blocks::Heap;
use fsc_base::{NoMemory, Word};
use std::alloc::Global;

/// A store to a bit-field whose unit was read: the word whose bits are to be written, and the word that the store then gives, if
/// any.
#[derive(Clone, Copy, Debug)]
pub struct Pending {
    pub word: Word,
    pub gives: Option<Word>,
}

/// A moment of a run.
#[derive(Drop)]
pub struct Moment {
    /// The place of the next row.
    pub(crate) place: u32,
    /// The words that are still wanted, the last one last, those of waiting activations below.
    pub(crate) words: Vec<Word>,
    /// The slots of all activations, the latest last.
    pub(crate) slots: Vec<Word>,
    /// The entry blocks of all activations, the latest last.
    pub(crate) blocks: Vec<u32>,
    /// The extra words of a variadic function that was called, until their block is made.
    pub(crate) extra: Vec<Word>,
    pub(crate) activation: Activation,
    /// The activations that wait for a call to return, the latest last.
    pub(crate) callers: Vec<Activation>,
    pub(crate) pending: Pending,
    pub(crate) heap: Heap,
}

/// A word without a base.
pub(crate) fn plain(value: u32) -> Word {
    Word { value, block: 0 }
}

impl Moment {
    /// The beginning of a run at a place, with this memory and one word.
    pub fn new(alloc: Global, heap: Heap, place: u32, word: Word) -> Result<Moment, NoMemory> {
        Ok(Moment {
            place,
            words: vec![in alloc; word; 1]?,
            slots: Vec::new(alloc),
            blocks: Vec::new(alloc),
            extra: Vec::new(alloc),
            activation: Activation::first(),
            callers: Vec::new(alloc),
            pending: Pending {
                word: plain(0),
                gives: None,
            },
            heap,
        })
    }

    /// The place of the next row.
    pub fn place(&self) -> u32 {
        self.place
    }

    /// Goes on at a place.
    pub fn go(&mut self, to: u32) {
        self.place = to;
    }

    // ---- words

    /// Takes the last word.
    pub fn take(&mut self) -> Result<Word, Stop> {
        match self.words.pop() {
            Some(word) => Ok(word),
            None => Err(Stop::Misfit),
        }
    }

    /// The last word, which stays.
    pub fn last(&self) -> Result<Word, Stop> {
        match self.words.last() {
            Some(word) => Ok(*word),
            None => Err(Stop::Misfit),
        }
    }

    /// Leaves a word.
    pub fn give(&mut self, word: Word) -> Result<(), Stop> {
        self.words.push(word)?;
        Ok(())
    }

    /// Puts a word below the last ones, of which there are so many.
    pub fn give_below(&mut self, below: u32, word: Word) -> Result<(), Stop> {
        let below = below as usize;
        let count = self.words.len();
        if count < below {
            return Err(Stop::Misfit);
        }
        self.words.insert(count - below, word)?;
        Ok(())
    }

    /// The word below the last ones, of which there are so many.
    pub fn below(&self, above: u32) -> Result<Word, Stop> {
        let above = above as usize;
        let count = self.words.len();
        if count <= above {
            return Err(Stop::Misfit);
        }
        Ok(self.words[count - above - 1])
    }

    // ---- slots

    /// Where a slot of the activation stands.
    fn slot_index(&self, slot: u32) -> Result<usize, Stop> {
        match self.activation.slots.checked_add(slot as usize) {
            Some(at) => {
                if at < self.slots.len() {
                    Ok(at)
                } else {
                    Err(Stop::Misfit)
                }
            }
            None => Err(Stop::Misfit),
        }
    }

    /// The word in a slot of the activation.
    pub fn slot(&self, slot: u32) -> Result<Word, Stop> {
        let at = self.slot_index(slot)?;
        match self.slots.get(at) {
            Some(word) => Ok(*word),
            None => Err(Stop::Misfit),
        }
    }

    /// Puts a word into a slot of the activation.
    pub fn set_slot(&mut self, slot: u32, word: Word) -> Result<(), Stop> {
        let at = self.slot_index(slot)?;
        match self.slots.get_mut(at) {
            Some(place) => {
                *place = word;
                Ok(())
            }
            None => Err(Stop::Misfit),
        }
    }

    // ---- stores to bit-fields

    /// Keeps what the next row writes.
    pub fn keep(&mut self, pending: Pending) {
        self.pending = pending;
    }

    /// What the row before kept.
    pub fn pending(&self) -> Pending {
        self.pending
    }
}
