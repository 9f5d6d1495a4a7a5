//! Byte strings that own their bytes: texts, names of files and identifiers, contents of segments.

ghost use Rattle.std.specs.Prelude.{◌≡◌, ℕ, ◌<◌, List, [], length, slice_set, IfOk};

use crate::memory::NoMemory;
use std::alloc::Global;
use std::default::MadeWith;
use std::marker::Model;

/// A list of bytes, of any value and number. Contracts see it as that list.
#[derive(Debug, Drop)]
pub struct Bytes {
    items: Vec<u8>,
}

/// The name of a file or an identifier. It need not be UTF-8.
pub type Name = Bytes;

impl Model for Bytes {
    ghost Value = { List ℕ };

    ghost view = { λ b. b.items.items };
}

impl MadeWith<Global> for Bytes {
    ghost is_made_with = { λ bytes. bytes ≡ [] };

    /// No bytes. It takes no memory.
    fn made_with(alloc: Global) -> Bytes {
        Bytes {
            items: Vec::new(alloc),
        }
    }
}

impl Bytes {
    /// A copy of `bytes`. Refused only for want of memory.
    pub fn from_slice(alloc: Global, bytes: &[u8]) -> Result<Bytes, NoMemory>
        ensures { IfOk result (λ copy. copy ≡ bytes.now) }
    {
        Ok(Bytes {
            items: Vec::from_slice(alloc, bytes)?,
        })
    }

    /// The same bytes, from a vector. It takes no memory.
    pub fn from_vec(items: Vec<u8>) -> Bytes
        ensures { result ≡ items.items }
    {
        Bytes { items }
    }

    /// The same bytes as a vector, which may grow. It takes no memory.
    pub fn into_vec(self) -> Vec<u8>
        ensures { result.items ≡ self }
    {
        let Bytes { items } = self;
        items
    }

    /// The bytes, lent.
    pub fn as_slice(&self) -> &[u8]
        ensures { result.now ≡ self.now }
    {
        self.items.as_slice()
    }

    /// Makes `byte` the byte at an index.
    pub fn set(&mut self, index: usize, byte: u8)
        requires { index < length self.old }
        ensures { self.new ≡ slice_set self.old index byte }
    {
        self.items[index] = byte;
    }
}
