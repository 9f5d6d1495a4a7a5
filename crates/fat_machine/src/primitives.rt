//! Primitives.

use crate::frame::Code;
use crate::machine::FatMachine;
use crate::memory::{UNDECIDED, plain};
use crate::stop::Stop;
use c_ops::Primitive;
use fsc_base::{End, Word};
use fsc_outside::{Gave, Sink, Source, Took};

impl<'p> FatMachine<'p> {
    /// A primitive; its last argument is the last word.
    pub(crate) fn primitive<S: Source, O: Sink>(
        &mut self,
        primitive: Primitive,
        input: &mut S,
        out: &mut O,
    ) -> Result<(), Stop> {
        match primitive {
            Primitive::Put => self.put(out),
            Primitive::Get => self.get(input),
            Primitive::Alloc => self.allocate(),
            Primitive::Release => self.release(),
            Primitive::Size => self.measure(),
            Primitive::Copy => self.copy_bytes(),
            Primitive::Exit => self.exit(),
            Primitive::Abort => Err(Stop::Ended(End::Abort)),
            Primitive::Extra => self.extra_address(),
        }
    }

    /// Writes the low 8 bits of a word, and gives them.
    fn put<O: Sink>(&mut self, out: &mut O) -> Result<(), Stop> {
        let word = self.word(0)?;
        let byte = (word.value % 256) as u8;
        write_byte(out, byte)?;
        self.replace(1, plain(u32::from(byte)))
    }

    /// Gives the next byte of the input, or -1 at its end.
    fn get<S: Source>(&mut self, input: &mut S) -> Result<(), Stop> {
        let word = read_byte(input)?;
        self.give(word)
    }

    /// Makes a block that is not decided, and gives its address; null where it doesn't fit.
    fn allocate(&mut self) -> Result<(), Stop> {
        let size = self.word(0)?;
        let word = match self.memory.make(size.value, UNDECIDED, true)? {
            Some(block) => self.memory.address(block),
            None => plain(0),
        };
        self.replace(1, word)
    }

    /// Ends the life of an allocated block; of the value 0 it does nothing.
    fn release(&mut self) -> Result<(), Stop> {
        let at = self.word(0)?;
        if at.value != 0 {
            let block = self.memory.asked_block(at)?;
            self.memory.kill(block)?;
        }
        self.replace(1, plain(0))
    }

    /// Gives the size of an allocated block.
    fn measure(&mut self) -> Result<(), Stop> {
        let at = self.word(0)?;
        let block = self.memory.asked_block(at)?;
        let size = self.memory.size(block)?;
        self.replace(1, plain(size))
    }

    /// Copies bytes: to, from, number.
    fn copy_bytes(&mut self) -> Result<(), Stop> {
        let size = self.word(0)?;
        let from = self.word(1)?;
        let to = self.word(2)?;
        self.memory.copy(to, from, size.value)?;
        self.replace(3, plain(0))
    }

    /// Ends the run.
    fn exit(&mut self) -> Result<(), Stop> {
        let status = self.word(0)?;
        Err(Stop::Ended(End::Exit((status.value % 256) as u8)))
    }

    /// The address of the block of the activation's extra words; null in a function that is not variadic.
    fn extra_address(&mut self) -> Result<(), Stop> {
        let word = self.extra_word()?;
        self.give(word)
    }

    /// The same address.
    fn extra_word(&self) -> Result<Word, Stop> {
        match self.frame.code {
            Code::Start => Ok(plain(0)),
            Code::Function { unit, function } => {
                if self.function(unit, function)?.is_variadic {
                    Ok(self.memory.address(self.frame.first))
                } else {
                    Ok(plain(0))
                }
            }
        }
    }
}

/// Writes one byte.
fn write_byte<O: Sink>(out: &mut O, byte: u8) -> Result<(), Stop> {
    match out.write(&[byte]) {
        Gave::Moved(_) => Ok(()),
        Gave::Failed => Err(Stop::WriteFault),
        Gave::NoMemory => Err(Stop::NoMemory),
    }
}

/// Reads one byte; -1 at the end.
fn read_byte<S: Source>(input: &mut S) -> Result<Word, Stop> {
    let mut buffer = [0; 1];
    match input.read(&mut buffer) {
        Took::Moved(_) => Ok(plain(u32::from(buffer[0]))),
        Took::End => Ok(plain(0xFFFF_FFFF)),
        Took::Failed => Err(Stop::ReadFault),
    }
}
