//! What is measured.

use fsc_base::{NoMemory, Width, WordKind};
use std::alloc::Global;
use std::io;
use type_desc::{Shape, Shapes};

/// A layout, and the descriptor that stands for it.
#[derive(Clone, Copy, Debug)]
pub struct Layout {
    pub name: &'static str,
    pub desc: u32,
}

/// The four layouts.
pub const LAYOUTS: [Layout; 4] = [
    Layout {
        name: "plane",
        desc: 3,
    },
    Layout {
        name: "narrow",
        desc: 4,
    },
    Layout {
        name: "pair",
        desc: 8,
    },
    Layout {
        name: "mixed",
        desc: 12,
    },
];

/// The shapes that the descriptors stand for.
pub fn shapes(alloc: Global) -> Result<Shapes, NoMemory> {
    let mut shapes = Shapes::new(alloc);
    shapes.add(4, Shape::of(alloc, &[WordKind::Narrow])?)?;
    shapes.add(8, Shape::of(alloc, &[WordKind::Fat])?)?;
    shapes.add(12, Shape::of(alloc, &[WordKind::Narrow, WordKind::Fat])?)?;
    Ok(shapes)
}

/// A kind of access: its width, and how far it lies behind a multiple of 4.
#[derive(Clone, Copy, Debug)]
pub struct Access {
    pub name: &'static str,
    pub width: Width,
    pub shift: u32,
}

/// Each width at a multiple of 4, and whole words that straddle two.
pub const ACCESSES: [Access; 4] = [
    Access {
        name: "1",
        width: Width::One,
        shift: 0,
    },
    Access {
        name: "2",
        width: Width::Two,
        shift: 0,
    },
    Access {
        name: "4",
        width: Width::Four,
        shift: 0,
    },
    Access {
        name: "4+1",
        width: Width::Four,
        shift: 1,
    },
];

/// The sizes of the blocks that are accessed or made, in bytes.
pub const BLOCK_SIZES: [u32; 4] = [16, 4096, 0x10_0000, 0x100_0000];

/// Want of memory, as the outside's errors say it.
pub fn out_of_memory(_: NoMemory) -> io::Error {
    io::Error::from(io::ErrorKind::OutOfMemory)
}
