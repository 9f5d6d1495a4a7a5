//! Calls, the blocks of activations, and returns.

use crate::frame::{Callee, Code, Frame, Making};
use crate::machine::FatMachine;
use crate::memory::{moved, plain};
use crate::stop::Stop;
use fsc_base::{End, Width, Word};

/// So many activations may be alive.
const MOST_ACTIVATIONS: usize = 65536;

/// The descriptor of the block of extra words: one fat word.
const EXTRA_DESC: u32 = 4;

/// The numbers of a function that its entry needs.
#[derive(Clone, Copy)]
struct Head {
    parameters: usize,
    slots: usize,
    is_variadic: bool,
}

impl<'p> FatMachine<'p> {
    /// Takes so many arguments and the word below them, and calls the function whose address that is.
    pub(crate) fn call(&mut self, arguments: u32) -> Result<(), Stop> {
        let count = arguments as usize;
        let called = self.word(count)?;
        let Some(callee) = self.callee(called) else {
            return Err(Stop::Ended(End::Call {
                block: called.block,
                offset: self.memory.offset(called),
            }));
        };
        if self.callers.len() >= MOST_ACTIVATIONS {
            return Err(Stop::Ended(End::Depth));
        }
        self.move_on()?;
        self.enter(callee, count)
    }

    /// The function whose address a word is.
    fn callee(&self, called: Word) -> Option<Callee> {
        if self.memory.offset(called) == 0 {
            self.callees.get(called.block as usize).copied().flatten()
        } else {
            None
        }
    }

    /// The numbers of a function.
    fn head(&self, callee: Callee) -> Result<Head, Stop> {
        let function = self.function(callee.unit, callee.function)?;
        Ok(Head {
            parameters: function.parameters as usize,
            slots: function.slots as usize,
            is_variadic: function.is_variadic,
        })
    }

    /// The activation of a function begins with so many arguments, the last words.
    fn enter(&mut self, callee: Callee, count: usize) -> Result<(), Stop> {
        let head = self.head(callee)?;
        let slots = self.slots.len();
        self.pass(head, count)?;
        self.keep_extra(head, count)?;
        self.pop(count)?;
        self.pop(1)?;
        self.callers.push(self.frame)?;
        self.frame = Frame {
            code: Code::Function {
                unit: callee.unit,
                function: callee.function,
            },
            pc: 0,
            slots,
            words: self.words.len(),
            first: self.memory.made().saturating_add(1),
            live: 0,
            made: 0,
        };
        Ok(())
    }

    /// The slots of a function: the first ones are the words that are passed, as many as there are parameters; all others are 0.
    fn pass(&mut self, head: Head, count: usize) -> Result<(), Stop> {
        for slot in 0..head.slots {
            let word = self.passed(head, count, slot)?;
            self.slots.push(word)?;
        }
        Ok(())
    }

    /// The word that a slot begins with.
    fn passed(&self, head: Head, count: usize, slot: usize) -> Result<Word, Stop> {
        if slot < head.parameters && slot < count {
            self.word(count - 1 - slot)
        } else {
            Ok(plain(0))
        }
    }

    /// The words beyond the parameters of a variadic function.
    fn keep_extra(&mut self, head: Head, count: usize) -> Result<(), Stop> {
        self.extra.clear();
        if head.is_variadic {
            for index in head.parameters..count {
                let word = self.word(count - 1 - index)?;
                self.extra.push(word)?;
            }
        }
        Ok(())
    }

    /// Makes a block of the activation.
    pub(crate) fn make(&mut self, making: Making) -> Result<(), Stop> {
        match making {
            Making::Extra => self.make_extra(),
            Making::Entry { size, shape } => self.make_entry(size, shape),
        }
    }

    /// Makes a block of a size; the run ends where it doesn't fit.
    fn make_block(&mut self, size: u32, desc: u32) -> Result<u32, Stop> {
        match self.memory.make(size, desc, false)? {
            Some(block) => {
                self.frame.live = self.frame.live.saturating_add(1);
                self.frame.made = self.frame.made.saturating_add(1);
                Ok(block)
            }
            None => Err(Stop::Ended(End::Blocks)),
        }
    }

    /// Makes an entry block.
    fn make_entry(&mut self, size: u32, shape: u32) -> Result<(), Stop> {
        let shape = self.shape(shape)?;
        self.make_block(size, shape.desc)?;
        Ok(())
    }

    /// Makes the block of the extra words, with the words in it.
    fn make_extra(&mut self) -> Result<(), Stop> {
        let Ok(count) = u32::try_from(self.extra.len()) else {
            return Err(Stop::Misfit);
        };
        let Some(size) = count.checked_mul(4) else {
            return Err(Stop::Misfit);
        };
        let block = self.make_block(size, EXTRA_DESC)?;
        for index in 0..count {
            self.put_extra(block, index)?;
        }
        Ok(())
    }

    /// Puts one of the extra words into their block.
    fn put_extra(&mut self, block: u32, index: u32) -> Result<(), Stop> {
        let Some(word) = self.extra.get(index as usize).copied() else {
            return Err(Stop::Misfit);
        };
        let address = self.memory.address(block);
        let at = moved(address, index.wrapping_mul(4));
        self.memory.write(at, Width::Four, word)
    }

    /// A return: while blocks of the activation are alive, it ends the first of them and comes again; then it gives its word to the
    /// caller.
    pub(crate) fn give_back(&mut self) -> Result<(), Stop> {
        let word = self.word(0)?;
        match self.frame.live.checked_sub(1) {
            Some(live) => self.end_block(live),
            None => self.leave(word),
        }
    }

    /// The first block of the activation that is alive ends; so many are left.
    fn end_block(&mut self, live: u32) -> Result<(), Stop> {
        self.memory.kill(self.frame.first)?;
        self.frame.first = self.frame.first.saturating_add(1);
        self.frame.live = live;
        Ok(())
    }

    /// The activation ends, and its caller goes on with a word.
    fn leave(&mut self, word: Word) -> Result<(), Stop> {
        let Some(caller) = self.callers.pop() else {
            return Err(Stop::Misfit);
        };
        self.words.truncate(self.frame.words);
        self.slots.truncate(self.frame.slots);
        self.frame = caller;
        self.words.push(word)?;
        Ok(())
    }
}
