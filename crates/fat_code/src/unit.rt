//! Units of fat code.

ghost use Rattle.std.specs.Prelude.{◌≡◌, None, IfOk, IfErr};
ghost use Rattle.fat_code.specs.declared.fault.Version.TheVariants.{Two};
ghost use Rattle.fat_code.specs.Faults.{IsFaultless, table_of};
ghost use Rattle.fat_code.specs.Walking.{IsFirst};

use crate::check::check;
use crate::fault::{CheckNo, Version};
use crate::op::Op;
use c_ops::{Definition, Linkage};
use c_types::{TypeId, TypeNode};
use fsc_base::{Name, Width};
use sqlite_items::Items;
use std::alloc::Global;
use std::marker::Model;
use type_desc::Kinds;

/// A name with linkage.
#[derive(Debug, Drop)]
pub struct FatSymbol {
    pub name: Name,
    pub linkage: Linkage,
    pub kind: TypeId,
    /// Whether an expression outside `sizeof`, or an initialiser, uses it.
    pub used: bool,
    pub definition: Definition,
}

/// A block that the entry of a function makes.
#[derive(Clone, Copy, Debug, PartialEq, Eq)]
pub struct FatEntry {
    /// In bytes.
    pub size: u32,
    /// The index of its shape among the unit's.
    pub shape: u32,
}

/// A function.
#[derive(Debug, Drop)]
pub struct FatFunction {
    /// How many words it takes from its caller, the first ones of its slots.
    pub parameters: u32,
    pub slots: u32,
    /// Whether it gets the words beyond its parameters in a block.
    pub is_variadic: bool,
    pub entries: Items<FatEntry>,
    pub ops: Items<Op>,
}

/// What a piece of an object holds.
#[derive(Clone, Copy, Debug, PartialEq, Eq)]
pub enum FatValue {
    Number(u32),
    /// The address that is so many bytes behind what a symbol of the unit names.
    Symbol { symbol: u32, offset: u32 },
    /// The address that is so many bytes behind the start of an object of the unit.
    Object { object: u32, offset: u32 },
}

/// A value that an object holds at the start of a run.
#[derive(Clone, Copy, Debug, PartialEq, Eq)]
pub struct FatPiece {
    /// In bytes, from the object's start.
    pub offset: u32,
    pub width: Width,
    pub value: FatValue,
}

/// An object that is there from the start of a run, a string literal among them.
#[derive(Debug, Drop)]
pub struct FatObject {
    /// In bytes.
    pub size: u32,
    /// The index of its shape among the unit's.
    pub shape: u32,
    pub pieces: Items<FatPiece>,
}

/// The parts of a unit, in the order of its file, whether or not they are free of faults.
#[derive(Drop)]
pub struct FatParts {
    /// How many nodes its text has.
    pub nodes: u32,
    /// Nodes that name one another by their indices.
    pub types: Items<TypeNode>,
    pub shapes: Items<Kinds>,
    pub symbols: Items<FatSymbol>,
    pub functions: Items<FatFunction>,
    pub objects: Items<FatObject>,
}

/// A unit of fat code. Its parts have none of the faults of a unit file: each index is in its table, each count within its limit,
/// and each operation finds the words that it takes.
#[derive(Drop)]
pub struct FatUnit {
    parts: FatParts,
}

impl Model for FatUnit {
    ghost use Rattle.fat_code.specs.declared.unit.FatParts.{FatParts};
    ghost use Rattle.fat_code.specs.Faults.{IsFaultless};

    ghost Value = { FatParts };

    ghost view = { λ u. u.parts };

    ghost invariant = { λ u. IsFaultless u.parts };
}

impl FatUnit {
    /// The unit of these parts. It takes no memory.
    pub fn of(parts: FatParts) -> FatUnit
        requires { IsFaultless parts }
        ensures { result ≡ parts }
    {
        FatUnit { parts }
    }

    /// The unit of these parts, where they have none of the faults of a unit file (`UnitFault`).
    ///
    /// `Fault` exactly where they have one, with the first in the order of their file of version 2 and its offset there in bytes;
    /// `NoMemory` where no memory is left for the check, or where their file would have 2^64 bytes or more.
    pub fn checked(alloc: Global, parts: FatParts) -> Result<FatUnit, CheckNo>
        ensures unit { IfOk result (λ unit. unit ≡ parts) }
        ensures fault { IfErr result (IsFirst (table_of Two parts)) }
    {
        check(alloc, &parts, Version::Two)?;
        Ok(FatUnit { parts })
    }

    /// Its parts.
    pub fn parts(&self) -> &FatParts
        ensures parts { result.now ≡ self.now }
        ensures faultless { IsFaultless self.now }
    {
        &self.parts
    }

    /// The same parts, without the unit. It takes no memory.
    pub fn into_parts(self) -> FatParts
        ensures parts { result ≡ self }
        ensures faultless { IsFaultless self }
    {
        let FatUnit { parts } = self;
        parts
    }
}
