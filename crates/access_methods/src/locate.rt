//! Where the bytes of an access lie.

ghost use Rattle.std.specs.Prelude.{◌≡◌};
ghost use Rattle.c_memory.specs.Access.{bytes_of, distance};
ghost use Rattle.access_methods.specs.Spots.{Locates};

use crate::form::Chosen;
use crate::object::Object;
use c_memory::Outside;
use cell_store::CellStore;
use fsc_base::{Width, Word};

/// Bytes that lie within a live object, from an offset on, and what its header says of it.
#[derive(Clone, Copy, Debug)]
pub(crate) struct Spot {
    pub block: u32,
    pub desc: u32,
    pub size: u32,
    pub offset: u32,
}

impl Spot {
    /// The object, by the layout of its cell.
    pub fn object<'a>(&self, layout: Chosen<'a>) -> Object<'a>
        ensures { result ≡ record { block = self.now.block; size = self.now.size; layout = layout.entry } }
    {
        Object {
            block: self.block,
            size: self.size,
            layout,
        }
    }

    /// The access of `n` bytes there, where it is refused.
    pub fn refused(&self, n: u32) -> Outside
        ensures { result ≡ record { block = self.now.block; offset = self.now.offset; width = n } }
    {
        Outside {
            block: self.block,
            offset: self.offset,
            width: n,
        }
    }
}

/// How many bytes an access of this width touches.
pub(crate) fn byte_count(width: Width) -> u32
    ensures { result ≡ bytes_of width }
{
    match width {
        Width::One => 1,
        Width::Two => 2,
        Width::Four => 4,
    }
}

/// How far a value lies behind a base, modulo 2^32.
fn distance(value: u32, base: u32) -> u32
    ensures { result ≡ distance value base }
{
    value.wrapping_sub(base)
}

/// The place of `n` bytes from a word on, where they are all within a live object; else the access that is refused.
pub(crate) fn locate(store: &CellStore, at: Word, n: u32) -> Result<Spot, Outside>
    ensures { Locates store.now at n result }
{
    let block = at.block;
    if !store.is_made(block) {
        return Err(Outside {
            block,
            offset: at.value,
            width: n,
        });
    }
    let header = store.header(block);
    let offset = distance(at.value, header.base);
    if header.desc >= 2 && u64::from(offset) + u64::from(n) <= u64::from(header.size) {
        Ok(Spot {
            block,
            desc: header.desc,
            size: header.size,
            offset,
        })
    } else {
        Err(Outside {
            block,
            offset,
            width: n,
        })
    }
}
