//! Numbers of 4 bytes, their lowest byte first, and the fields that are made of them.

ghost use Rattle.std.specs.Prelude.{◌≡◌, ◌+◌, ◌≤◌, ◌++◌, drop, length, IfOk, OnOk};
ghost use Rattle.fat_code.specs.declared.fault.CheckNo.TheVariants.{Fault};
ghost use Rattle.unit_file.specs.Reading.{Reads, Tells, IsNumber};
ghost use Rattle.unit_file.specs.Spelling.{number as number_bytes, numbers, spelled_name};
ghost use Rattle.unit_file.specs.Tags.{flag_tag, width_tag};

use crate::tag::{flag_of, width_of};
use byteorder::{ByteOrder, LittleEndian};
use fat_code::{CheckNo, UnitFault};
use fsc_base::{Name, NoMemory, Width};
use std::alloc::Global;

/// What was read, and the offset behind it.
#[derive(Drop)]
pub(crate) struct Found<T> {
    pub value: T,
    pub behind: usize,
}

/// A fault at an offset.
pub(crate) fn bad(fault: UnitFault, offset: usize) -> CheckNo
    ensures { result ≡ Fault fault offset }
{
    CheckNo::Fault(fault, offset as u64)
}

/// The bytes from an offset on; none behind the end.
fn rest_of(file: &[u8], at: usize) -> &[u8]
    ensures { result.now ≡ drop at file.now }
{
    match file.get(at..) {
        Some(rest) => rest,
        None => &[],
    }
}

/// The number at an offset. Short where the file ends before it does.
pub(crate) fn read_number(file: &[u8], at: usize) -> Result<Found<u32>, CheckNo>
    ensures read { Reads number_bytes file.now at result }
    ensures known { IfOk result (λ found. IsNumber file.now at found) }
{
    let rest = rest_of(file, at);
    if rest.len() < 4 {
        return Err(bad(UnitFault::Short, file.len()));
    }
    Ok(Found {
        value: LittleEndian::read_u32(rest),
        behind: at + 4,
    })
}

/// What the tag at an offset means. Tag where it means nothing.
pub(crate) fn tagged<T: Copy>(
    value: Option<T>,
    at: usize,
    behind: usize,
) -> Result<Found<T>, CheckNo>
    ensures { Tells value at behind result }
{
    match value {
        Some(value) => Ok(Found { value, behind }),
        None => Err(bad(UnitFault::Tag, at)),
    }
}

/// A flag: 0 or 1. Tag where it is another number.
pub(crate) fn read_flag(file: &[u8], at: usize) -> Result<Found<bool>, CheckNo>
    ensures { Reads (λ flag. number_bytes (flag_tag flag)) file.now at result }
{
    let number = read_number(file, at)?;
    tagged(flag_of(number.value), at, number.behind)
}

/// A width. Tag where it is no width.
pub(crate) fn read_width(file: &[u8], at: usize) -> Result<Found<Width>, CheckNo>
    ensures { Reads (λ width. number_bytes (width_tag width)) file.now at result }
{
    let number = read_number(file, at)?;
    tagged(width_of(number.value), at, number.behind)
}

/// A name: its count and its bytes. Short where the file ends before they do.
pub(crate) fn read_name(alloc: Global, file: &[u8], at: usize) -> Result<Found<Name>, CheckNo>
    ensures { Reads spelled_name file.now at result }
{
    let count = read_number(file, at)?;
    let rest = rest_of(file, count.behind);
    let length = count.value as usize;
    if rest.len() < length {
        return Err(bad(UnitFault::Short, file.len()));
    }
    let bytes = &rest[..length];
    let value = Name::from_slice(alloc, bytes)?;
    Ok(Found {
        value,
        behind: count.behind + length,
    })
}

/// Writes a number.
#[tactic(auto, unfolding(crate::specs::Spelling::number))]
pub(crate) fn put_number(out: &mut Vec<u8>, number: u32) -> Result<(), NoMemory>
    ensures { OnOk result (out.new.items ≡ out.old.items ++ number_bytes number) }
{
    let mut bytes = [0; 4];
    LittleEndian::write_u32(&mut bytes, number);
    out.extend_from_slice(&bytes)?;
    Ok(())
}

/// Writes numbers.
pub(crate) fn put_numbers(out: &mut Vec<u8>, all: &[u32]) -> Result<(), NoMemory>
    ensures { OnOk result (out.new.items ≡ out.old.items ++ numbers all.now) }
{
    for number in all {
        put_number(out, *number)?;
    }
    Ok(())
}

/// Writes a count. Refused where it is none that a file can have: no memory holds as much.
pub(crate) fn put_count(out: &mut Vec<u8>, count: usize) -> Result<(), NoMemory>
    ensures { OnOk result (out.new.items ≡ out.old.items ++ number_bytes count) }
{
    match u32::try_from(count) {
        Ok(count) => put_number(out, count),
        Err(_) => Err(NoMemory),
    }
}

/// Writes a name.
pub(crate) fn put_name(out: &mut Vec<u8>, name: &[u8]) -> Result<(), NoMemory>
    ensures { OnOk result (out.new.items ≡ out.old.items ++ spelled_name name.now) }
{
    put_count(out, name.len())?;
    out.extend_from_slice(name)?;
    Ok(())
}
