//! Operations, one function for each or for each family.

use crate::frame::Code;
use crate::machine::FatMachine;
use crate::memory::{Reach, ShapeRef, moved, plain};
use crate::stop::Stop;
use c_ops::{Binary, Unary, narrowed};
use fat_code::Op;
use fsc_base::{End, Width, Word};
use fsc_outside::{Sink, Source};

impl<'p> FatMachine<'p> {
    /// An operation. Nothing of the words is changed where it ends the run.
    pub(crate) fn perform<S: Source, O: Sink>(
        &mut self,
        op: Op,
        input: &mut S,
        out: &mut O,
    ) -> Result<(), Stop> {
        match op {
            Op::Label(_) => self.move_on(),
            Op::Jump(to) => self.jump(to),
            Op::JumpZero(to) => self.jump_zero(to),
            Op::JumpCase { value, to } => self.jump_case(value, to),
            Op::Number(value) => self.give(plain(value)),
            Op::Symbol { symbol, offset } => self.symbol(symbol, offset),
            Op::Object { object, offset } => self.object(object, offset),
            Op::SlotGet(slot) => self.slot_get(slot),
            Op::SlotSet(slot) => self.slot_set(slot),
            Op::Entry(entry) => self.entry(entry),
            Op::Load { .. } | Op::Store { .. } => self.access(op),
            Op::Binary(binary) => self.binary(binary),
            Op::Unary(unary) => self.unary(unary),
            Op::Narrow { width, is_signed } => self.narrow(width, is_signed),
            Op::Cast(shape) => self.cast(shape),
            Op::Copy(size) => self.copy(size),
            Op::Clear(size) => self.clear(size),
            Op::Duplicate => self.duplicate(),
            Op::Swap => self.swap(),
            Op::Drop => self.take(1),
            Op::Call(arguments) => self.call(arguments),
            Op::Primitive(primitive) => self.primitive(primitive, input, out),
            Op::Return => self.give_back(),
        }
    }

    /// A load or a store.
    fn access(&mut self, op: Op) -> Result<(), Stop> {
        match op {
            Op::Load {
                width,
                is_signed,
                shape,
                member,
            } => self.load(width, is_signed, shape, member),
            Op::Store {
                width,
                shape,
                member,
            } => self.store_word(width, shape, member),
            _ => Err(Stop::Misfit),
        }
    }

    // words

    /// The word that is so many below the last one.
    pub(crate) fn word(&self, below: usize) -> Result<Word, Stop> {
        let own = self.words.len().saturating_sub(self.frame.words);
        if below >= own {
            return Err(Stop::Misfit);
        }
        match self.words.get(self.words.len() - 1 - below) {
            Some(word) => Ok(*word),
            None => Err(Stop::Misfit),
        }
    }

    /// Takes so many words.
    pub(crate) fn pop(&mut self, count: usize) -> Result<(), Stop> {
        let own = self.words.len().saturating_sub(self.frame.words);
        if count > own {
            return Err(Stop::Misfit);
        }
        self.words.truncate(self.words.len() - count);
        Ok(())
    }

    /// Takes so many words, and goes on.
    fn take(&mut self, count: usize) -> Result<(), Stop> {
        self.pop(count)?;
        self.move_on()
    }

    /// Pushes a word, and goes on.
    pub(crate) fn give(&mut self, word: Word) -> Result<(), Stop> {
        self.words.push(word)?;
        self.move_on()
    }

    /// Pushes a word in place of so many, and goes on.
    pub(crate) fn replace(&mut self, count: usize, word: Word) -> Result<(), Stop> {
        self.pop(count)?;
        self.give(word)
    }

    // jumps

    /// Goes on elsewhere.
    fn jump(&mut self, to: u32) -> Result<(), Stop> {
        self.frame.pc = to;
        Ok(())
    }

    /// Takes a word, and goes on elsewhere where its value is 0.
    fn jump_zero(&mut self, to: u32) -> Result<(), Stop> {
        let word = self.word(0)?;
        self.pop(1)?;
        if word.value == 0 {
            self.jump(to)
        } else {
            self.move_on()
        }
    }

    /// Goes on elsewhere where the last word has a value.
    fn jump_case(&mut self, value: u32, to: u32) -> Result<(), Stop> {
        let word = self.word(0)?;
        if word.value == value {
            self.jump(to)
        } else {
            self.move_on()
        }
    }

    // addresses and slots

    /// The unit of the activation.
    fn own_unit(&self) -> Result<u32, Stop> {
        match self.frame.code {
            Code::Start => Err(Stop::Misfit),
            Code::Function { unit, .. } => Ok(unit),
        }
    }

    /// Pushes the address of a block, so many bytes further on.
    fn give_address(&mut self, block: u32, offset: u32) -> Result<(), Stop> {
        let address = self.memory.address(block);
        self.give(moved(address, offset))
    }

    /// Pushes an address behind what a symbol names.
    fn symbol(&mut self, symbol: u32, offset: u32) -> Result<(), Stop> {
        let unit = self.own_unit()?;
        match self.program.symbols.get(unit as usize) {
            Some(blocks) => match blocks.get(symbol as usize) {
                Some(block) => self.give_address(*block, offset),
                None => Err(Stop::Misfit),
            },
            None => Err(Stop::Misfit),
        }
    }

    /// Pushes an address behind the start of an object.
    fn object(&mut self, object: u32, offset: u32) -> Result<(), Stop> {
        let unit = self.own_unit()?;
        match self.program.objects.get(unit as usize) {
            Some(blocks) => match blocks.get(object as usize) {
                Some(block) => self.give_address(*block, offset),
                None => Err(Stop::Misfit),
            },
            None => Err(Stop::Misfit),
        }
    }

    /// Where a slot of the activation is kept.
    fn slot_place(&self, slot: u32) -> Result<usize, Stop> {
        match self.frame.slots.checked_add(slot as usize) {
            Some(place) => Ok(place),
            None => Err(Stop::Misfit),
        }
    }

    /// Pushes the word in a slot.
    fn slot_get(&mut self, slot: u32) -> Result<(), Stop> {
        let place = self.slot_place(slot)?;
        match self.slots.get(place).copied() {
            Some(word) => self.give(word),
            None => Err(Stop::Misfit),
        }
    }

    /// Puts the last word into a slot, and keeps it.
    fn slot_set(&mut self, slot: u32) -> Result<(), Stop> {
        let word = self.word(0)?;
        let place = self.slot_place(slot)?;
        match self.slots.get_mut(place) {
            Some(kept) => *kept = word,
            None => return Err(Stop::Misfit),
        }
        self.move_on()
    }

    /// How many blocks of the activation stand before its entry blocks.
    fn blocks_before(&self) -> Result<u32, Stop> {
        match self.frame.code {
            Code::Start => Err(Stop::Misfit),
            Code::Function { unit, function } => {
                Ok(u32::from(self.function(unit, function)?.is_variadic))
            }
        }
    }

    /// Pushes the address of an entry block.
    fn entry(&mut self, entry: u32) -> Result<(), Stop> {
        let before = self.blocks_before()?;
        match self.frame.first.checked_add(before) {
            Some(first) => match first.checked_add(entry) {
                Some(block) => self.give_address(block, 0),
                None => Err(Stop::Misfit),
            },
            None => Err(Stop::Misfit),
        }
    }

    // accesses

    /// A shape of the activation's unit.
    pub(crate) fn shape(&self, shape: u32) -> Result<ShapeRef, Stop> {
        let unit = self.own_unit()?;
        match self.descs.get(unit as usize) {
            Some(descs) => match descs.get(shape as usize) {
                Some(desc) => Ok(*desc),
                None => Err(Stop::Misfit),
            },
            None => Err(Stop::Misfit),
        }
    }

    /// Takes an address, and pushes what lies there.
    fn load(&mut self, width: Width, is_signed: bool, shape: u32, member: u32) -> Result<(), Stop> {
        let at = self.word(0)?;
        let shape = self.shape(shape)?;
        self.memory.watch(Reach {
            at,
            width,
            member,
            shape,
            is_write: false,
        })?;
        let word = self.memory.read(at, width)?;
        self.replace(1, narrowed(width, is_signed, word))
    }

    /// Takes a word and an address below it, writes the word there, and pushes it.
    fn store_word(&mut self, width: Width, shape: u32, member: u32) -> Result<(), Stop> {
        let word = self.word(0)?;
        let at = self.word(1)?;
        let shape = self.shape(shape)?;
        self.memory.watch(Reach {
            at,
            width,
            member,
            shape,
            is_write: true,
        })?;
        self.memory.write(at, width, word)?;
        self.replace(2, word)
    }

    /// Converts the last word to a pointer, which decides its block.
    fn cast(&mut self, shape: u32) -> Result<(), Stop> {
        let word = self.word(0)?;
        let shape = self.shape(shape)?;
        self.memory.decide(word.block, shape.desc)?;
        self.move_on()
    }

    /// Takes the address of a source, and copies from it to the address below.
    fn copy(&mut self, size: u32) -> Result<(), Stop> {
        let from = self.word(0)?;
        let to = self.word(1)?;
        self.memory.copy(to, from, size)?;
        self.take(1)
    }

    /// Takes an address, and writes zero bytes there.
    fn clear(&mut self, size: u32) -> Result<(), Stop> {
        let at = self.word(0)?;
        self.memory.clear(at, size)?;
        self.take(1)
    }

    // operators

    /// Takes two operands, and pushes the result.
    fn binary(&mut self, binary: Binary) -> Result<(), Stop> {
        let right = self.word(0)?;
        let left = self.word(1)?;
        match binary.apply(left, right) {
            Some(word) => self.replace(2, word),
            None => Err(Stop::Ended(End::Divide)),
        }
    }

    /// Takes an operand, and pushes the result.
    fn unary(&mut self, unary: Unary) -> Result<(), Stop> {
        let word = self.word(0)?;
        self.replace(1, unary.apply(word))
    }

    /// Converts the last word to an arithmetic type.
    fn narrow(&mut self, width: Width, is_signed: bool) -> Result<(), Stop> {
        let word = self.word(0)?;
        self.replace(1, narrowed(width, is_signed, word))
    }

    /// Pushes the last word again.
    fn duplicate(&mut self) -> Result<(), Stop> {
        let word = self.word(0)?;
        self.give(word)
    }

    /// Exchanges the last two words.
    fn swap(&mut self) -> Result<(), Stop> {
        let last = self.word(0)?;
        let other = self.word(1)?;
        self.pop(2)?;
        self.words.push(last)?;
        self.give(other)
    }
}
