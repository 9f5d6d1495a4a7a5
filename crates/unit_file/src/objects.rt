//! Objects.

ghost use Rattle.std.specs.Prelude.{◌≡◌, ◌+◌, ◌-◌, ◌^◌, ◌≤◌, ◌++◌, ◌∷◌, [], length, min, OnOk};
ghost use Rattle.fat_code.specs.declared.fault.Version.TheVariants.{Two};
ghost use Rattle.unit_file.specs.Reading.{Reads, ReadsBehind};
ghost use Rattle.unit_file.specs.Spelling.{number as number_bytes, numbers, spelled_value, spelled_piece, spelled_object};

use crate::number::{Found, bad, put_number, put_numbers, read_number, read_width};
use crate::spelled::{Spelled, count_list, put_list, read_list};
use crate::tag::number_of_width;
use fat_code::{CheckNo, FatObject, FatPiece, FatValue, UnitFault, Version};
use fsc_base::NoMemory;
use sqlite_items::Items;
use std::alloc::Global;

/// A number as what a piece holds.
fn read_number_value(file: &[u8], at: usize) -> Result<Found<FatValue>, CheckNo>
    ensures { ReadsBehind (number_bytes 0) spelled_value file.now at result }
{
    let number = read_number(file, at)?;
    Ok(Found {
        value: FatValue::Number(number.value),
        behind: number.behind,
    })
}

/// An address of a symbol.
fn read_symbol_value(file: &[u8], at: usize) -> Result<Found<FatValue>, CheckNo>
    ensures { ReadsBehind (number_bytes 1) spelled_value file.now at result }
{
    let symbol = read_number(file, at)?;
    let offset = read_number(file, symbol.behind)?;
    Ok(Found {
        value: FatValue::Symbol {
            symbol: symbol.value,
            offset: offset.value,
        },
        behind: offset.behind,
    })
}

/// An address of an object.
fn read_object_value(file: &[u8], at: usize) -> Result<Found<FatValue>, CheckNo>
    ensures { ReadsBehind (number_bytes 2) spelled_value file.now at result }
{
    let object = read_number(file, at)?;
    let offset = read_number(file, object.behind)?;
    Ok(Found {
        value: FatValue::Object {
            object: object.value,
            offset: offset.value,
        },
        behind: offset.behind,
    })
}

/// What a piece holds.
fn read_value(file: &[u8], at: usize) -> Result<Found<FatValue>, CheckNo>
    ensures { Reads spelled_value file.now at result }
{
    let tag = read_number(file, at)?;
    match tag.value {
        0 => read_number_value(file, tag.behind),
        1 => read_symbol_value(file, tag.behind),
        2 => read_object_value(file, tag.behind),
        _ => Err(bad(UnitFault::Tag, at)),
    }
}

/// Writes what a piece holds.
fn put_value(out: &mut Vec<u8>, value: FatValue) -> Result<(), NoMemory>
    ensures { OnOk result (out.new.items ≡ out.old.items ++ spelled_value value) }
{
    match value {
        FatValue::Number(number) => put_numbers(out, &[0, number]),
        FatValue::Symbol { symbol, offset } => put_numbers(out, &[1, symbol, offset]),
        FatValue::Object { object, offset } => put_numbers(out, &[2, object, offset]),
    }
}

/// How many bytes it takes.
#[tactic(auto, using(crate::proofs::Bytes::lengths))]
fn count_value(value: FatValue) -> u64
    ensures count { result ≡ length (spelled_value value) }
    ensures few { result ≤ 12 }
{
    match value {
        FatValue::Number(_) => 8,
        FatValue::Symbol { .. } | FatValue::Object { .. } => 12,
    }
}

impl Spelled for FatPiece {
    ghost spelled = { λ version piece. spelled_piece piece };

    fn read(
        _alloc: Global,
        _version: Version,
        file: &[u8],
        at: usize,
    ) -> Result<Found<FatPiece>, CheckNo> {
        let offset = read_number(file, at)?;
        let width = read_width(file, offset.behind)?;
        let value = read_value(file, width.behind)?;
        Ok(Found {
            value: FatPiece {
                offset: offset.value,
                width: width.value,
                value: value.value,
            },
            behind: value.behind,
        })
    }

    fn put(&self, out: &mut Vec<u8>) -> Result<(), NoMemory> {
        put_numbers(out, &[self.offset, number_of_width(self.width)])?;
        put_value(out, self.value)
    }

    #[tactic(auto, using(crate::proofs::Bytes::lengths))]
    fn count(&self) -> u64 {
        8 + count_value(self.value)
    }
}

/// An object of these parts.
fn object(size: u32, shape: u32, pieces: Found<Vec<FatPiece>>) -> Found<FatObject>
    ensures value { result.value ≡ record { size = size; shape = shape; pieces = pieces.value.items } }
    ensures behind { result.behind ≡ pieces.behind }
{
    Found {
        value: FatObject {
            size,
            shape,
            pieces: Items::from_vec(pieces.value),
        },
        behind: pieces.behind,
    }
}

impl Spelled for FatObject {
    ghost spelled = { λ version object. spelled_object object };

    fn read(
        alloc: Global,
        version: Version,
        file: &[u8],
        at: usize,
    ) -> Result<Found<FatObject>, CheckNo> {
        let size = read_number(file, at)?;
        let shape = read_number(file, size.behind)?;
        let pieces = read_list(alloc, version, file, shape.behind)?;
        Ok(object(size.value, shape.value, pieces))
    }

    fn put(&self, out: &mut Vec<u8>) -> Result<(), NoMemory> {
        put_numbers(out, &[self.size, self.shape])?;
        put_list(out, self.pieces.as_slice())
    }

    #[tactic(auto, using(crate::proofs::Bytes::lengths))]
    fn count(&self) -> u64 {
        count_list(self.pieces.as_slice()).saturating_add(8)
    }
}
