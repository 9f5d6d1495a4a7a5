//! Headers of blocks in a list of words.

use crate::told::{Told, tell, tell_numbers};
use block_header::{Header, read_header, write_header};
use case_table::{NoStep, number_of};
use std::alloc::Global;

/// The words of a case that headers stand in.
#[derive(Drop)]
pub struct Headers {
    words: Vec<u32>,
}

impl Headers {
    /// No words.
    pub fn new(alloc: Global) -> Headers {
        Headers {
            words: Vec::new(alloc),
        }
    }

    /// Makes four numbers the header of a block.
    fn write(&mut self, alloc: Global, block: u32, header: Header) -> Told {
        if block == 0 || 4 * u64::from(block) > self.words.len() as u64 {
            return Err(NoStep::Malformed("no header of such a block"));
        }
        write_header(&mut self.words, block, header);
        tell(alloc, "ok")
    }

    /// The header of a block.
    fn read(&self, alloc: Global, block: u32) -> Told {
        if block == 0 || 4 * u64::from(block) > self.words.len() as u64 {
            return Err(NoStep::Malformed("no header of such a block"));
        }
        let header = read_header(&self.words, block);
        tell_numbers(alloc, &[header.desc, header.size, header.base, header.cell])
    }

    /// Does a step of headers.
    pub fn step(&mut self, alloc: Global, words: &[&str]) -> Told {
        match words {
            ["header_words", words @ ..] => {
                for word in words {
                    self.words.push(number_of(word)?)?;
                }
                tell(alloc, "ok")
            }
            ["show_words"] => tell_numbers(alloc, &self.words),
            ["read_header", block] => self.read(alloc, number_of(block)?),
            ["write_header", block, desc, size, base, cell] => {
                let header = Header {
                    desc: number_of(desc)?,
                    size: number_of(size)?,
                    base: number_of(base)?,
                    cell: number_of(cell)?,
                };
                self.write(alloc, number_of(block)?, header)
            }
            _ => Ok(None),
        }
    }
}
