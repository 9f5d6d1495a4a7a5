//! Programs of fat code.

ghost use Rattle.std.specs.Prelude.{◌≡◌};
ghost use Rattle.fat_code.specs.Programs.{IsProgram};

use crate::unit::FatUnit;
use byte_blocks::Heap;
use sqlite_items::Items;
use std::marker::Model;

/// Numbers of blocks.
pub type BlockList = Items<u32>;

/// A list of numbers of blocks for each unit.
pub type BlockLists = Items<BlockList>;

/// The parts of a program, whether or not they fit together.
#[derive(Drop)]
pub struct ProgramParts {
    /// In link order.
    pub units: Items<FatUnit>,
    /// For each unit the blocks of its functions.
    pub functions: BlockLists,
    /// For each unit the blocks that its symbols mean, 0 for one without a block.
    pub symbols: BlockLists,
    /// For each unit the blocks of its objects.
    pub objects: BlockLists,
    /// Memory at the start of a run.
    pub heap: Heap,
    /// The block of `main`.
    pub entry: u32,
}

/// A program: its blocks are numbered, and memory is filled, as linking says of its units, of which there are at most 1,100; each
/// used name is defined, and none twice; there is a `main`; and the counts of linking are within their limits.
#[derive(Drop)]
pub struct FatProgram {
    parts: ProgramParts,
}

impl Model for FatProgram {
    ghost use Rattle.fat_code.specs.declared.program.ProgramParts.{ProgramParts};
    ghost use Rattle.fat_code.specs.Programs.{IsProgram};

    ghost Value = { ProgramParts };

    ghost view = { λ p. p.parts };

    ghost invariant = { λ p. IsProgram p.parts };
}

impl FatProgram {
    /// The program of these parts. It takes no memory.
    pub fn of(parts: ProgramParts) -> FatProgram
        requires { IsProgram parts }
        ensures { result ≡ parts }
    {
        FatProgram { parts }
    }

    /// Its parts.
    pub fn parts(&self) -> &ProgramParts
        ensures parts { result.now ≡ self.now }
        ensures linked { IsProgram self.now }
    {
        &self.parts
    }

    /// The same parts, without the program. It takes no memory.
    pub fn into_parts(self) -> ProgramParts
        ensures parts { result ≡ self }
        ensures linked { IsProgram self }
    {
        let FatProgram { parts } = self;
        parts
    }
}
