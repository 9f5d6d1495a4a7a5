//! Types.

ghost use Rattle.std.specs.Prelude.{◌≡◌, ◌+◌, ◌-◌, ◌^◌, ◌≤◌, ◌++◌, ◌∷◌, [], length, min, OnOk};
ghost use Rattle.fat_code.specs.declared.fault.Version.TheVariants.{Two};
ghost use Rattle.c_types.specs.declared.node.TypeNode.TheVariants.{Function as function_node};
ghost use Rattle.unit_file.specs.Reading.{Reads, ReadsBehind};
ghost use Rattle.unit_file.specs.Spelling.{number as number_bytes, list_of, spelled_name, spelled_bits, spelled_field, spelled_record, spelled_node};
ghost use Rattle.unit_file.specs.Tags.{flag_tag};

use crate::number::{
    Found, bad, put_name, put_number, put_numbers, read_flag, read_name, read_number, tagged,
};
use crate::spelled::{Spelled, count_list, put_list, read_list};
use crate::tag::{basic_of, bits_of, number_of_basic, number_of_flag};
use c_types::{Field, Record, TypeNode};
use fat_code::{CheckNo, UnitFault, Version};
use fsc_base::{Name, NoMemory};
use sqlite_items::Items;
use std::alloc::Global;

/// The place of a bit-field, as a member has it in a file.
#[derive(Clone, Copy)]
struct Bits {
    first: u32,
    count: u32,
}

/// The bit-field's place at an offset; files of version 1 have none.
fn read_bits(version: Version, file: &[u8], at: usize) -> Result<Found<Bits>, CheckNo>
    requires { at ≤ length file.now }
    ensures { Reads (λ bits. spelled_bits version bits.first bits.count) file.now at result }
{
    match version {
        Version::One => Ok(Found {
            value: Bits { first: 0, count: 0 },
            behind: at,
        }),
        Version::Two => {
            let first = read_number(file, at)?;
            let count = read_number(file, first.behind)?;
            Ok(Found {
                value: Bits {
                    first: first.value,
                    count: count.value,
                },
                behind: count.behind,
            })
        }
    }
}

/// A member of these parts.
fn field(name: Name, kind: u32, bits: Found<Bits>) -> Found<Field>
    ensures value { result.value ≡ record { name = name; kind = kind; first = bits.value.first; count = bits.value.count } }
    ensures behind { result.behind ≡ bits.behind }
{
    Found {
        value: Field {
            name,
            kind,
            first: bits.value.first,
            count: bits.value.count,
        },
        behind: bits.behind,
    }
}

impl Spelled for Field {
    ghost spelled = { spelled_field };

    fn read(
        alloc: Global,
        version: Version,
        file: &[u8],
        at: usize,
    ) -> Result<Found<Field>, CheckNo> {
        let name = read_name(alloc, file, at)?;
        let kind = read_number(file, name.behind)?;
        let bits = read_bits(version, file, kind.behind)?;
        Ok(field(name.value, kind.value, bits))
    }

    fn put(&self, out: &mut Vec<u8>) -> Result<(), NoMemory> {
        put_name(out, self.name.as_slice())?;
        put_numbers(out, &[self.kind, self.first, self.count])
    }

    #[tactic(auto, using(crate::proofs::Bytes::lengths))]
    fn count(&self) -> u64 {
        16 + self.name.as_slice().len() as u64
    }
}

/// A struct or union of these parts.
fn record_of(tag: Name, is_complete: bool, fields: Found<Vec<Field>>) -> Found<Record>
    ensures value { result.value ≡ record { tag = tag; is_complete = is_complete; fields = fields.value.items } }
    ensures behind { result.behind ≡ fields.behind }
{
    Found {
        value: Record {
            tag,
            is_complete,
            fields: Items::from_vec(fields.value),
        },
        behind: fields.behind,
    }
}

/// A struct or union: its tag, whether it is complete, and its members.
fn read_record(
    alloc: Global,
    version: Version,
    file: &[u8],
    at: usize,
) -> Result<Found<Record>, CheckNo>
    ensures { Reads (spelled_record version) file.now at result }
{
    let tag = read_name(alloc, file, at)?;
    let is_complete = read_flag(file, tag.behind)?;
    let fields = read_list(alloc, version, file, is_complete.behind)?;
    Ok(record_of(tag.value, is_complete.value, fields))
}

/// Writes a struct or union behind its tag.
fn put_record(out: &mut Vec<u8>, tag: u32, parts: &Record) -> Result<(), NoMemory>
    ensures { OnOk result (out.new.items ≡ out.old.items ++ (number_bytes tag ++ spelled_record Two parts.now)) }
{
    put_number(out, tag)?;
    put_name(out, parts.tag.as_slice())?;
    put_number(out, number_of_flag(parts.is_complete))?;
    put_list(out, parts.fields.as_slice())
}

/// How many bytes a struct or union takes.
#[tactic(auto, using(crate::proofs::Bytes::lengths))]
fn count_record(parts: &Record) -> u64
    ensures { result ≡ min (4 + length (spelled_record Two parts.now)) (2 ^ 64 - 1) }
{
    count_list(parts.fields.as_slice()).saturating_add(12 + parts.tag.as_slice().len() as u64)
}

/// An arithmetic type.
#[tactic(auto, unfolding(crate::specs::Spelling::spelled_node))]
fn read_basic(version: Version, file: &[u8], at: usize) -> Result<Found<TypeNode>, CheckNo>
    ensures { ReadsBehind (number_bytes 1) (spelled_node version) file.now at result }
{
    let number = read_number(file, at)?;
    let basic = tagged(basic_of(number.value), at, number.behind)?;
    Ok(Found {
        value: TypeNode::Basic(basic.value),
        behind: basic.behind,
    })
}

/// A pointer.
#[tactic(auto, unfolding(crate::specs::Spelling::spelled_node))]
fn read_pointer(version: Version, file: &[u8], at: usize) -> Result<Found<TypeNode>, CheckNo>
    ensures { ReadsBehind (number_bytes 2) (spelled_node version) file.now at result }
{
    let to = read_number(file, at)?;
    Ok(Found {
        value: TypeNode::Pointer(to.value),
        behind: to.behind,
    })
}

/// An array.
#[tactic(auto, unfolding(crate::specs::Spelling::spelled_node))]
fn read_array(version: Version, file: &[u8], at: usize) -> Result<Found<TypeNode>, CheckNo>
    ensures { ReadsBehind (number_bytes 3) (spelled_node version) file.now at result }
{
    let of = read_number(file, at)?;
    let count = read_number(file, of.behind)?;
    Ok(Found {
        value: TypeNode::Array {
            of: of.value,
            count: count.value,
        },
        behind: count.behind,
    })
}

/// A function type of these parts.
fn function(
    returns: u32,
    is_known: bool,
    parameters: Vec<u32>,
    is_variadic: Found<bool>,
) -> Found<TypeNode>
    ensures value { result.value ≡ function_node returns is_known parameters.items is_variadic.value }
    ensures behind { result.behind ≡ is_variadic.behind }
{
    Found {
        value: TypeNode::Function {
            returns,
            is_known,
            parameters: Items::from_vec(parameters),
            is_variadic: is_variadic.value,
        },
        behind: is_variadic.behind,
    }
}

/// A function type.
#[tactic(auto, unfolding(crate::specs::Spelling::spelled_node))]
fn read_function(
    alloc: Global,
    version: Version,
    file: &[u8],
    at: usize,
) -> Result<Found<TypeNode>, CheckNo>
    ensures { ReadsBehind (number_bytes 4) (spelled_node version) file.now at result }
{
    let returns = read_number(file, at)?;
    let is_known = read_flag(file, returns.behind)?;
    let parameters = read_list(alloc, version, file, is_known.behind)?;
    let is_variadic = read_flag(file, parameters.behind)?;
    Ok(function(returns.value, is_known.value, parameters.value, is_variadic))
}

/// Writes a function type.
#[tactic(auto, unfolding(crate::specs::Spelling::spelled_node))]
fn put_function(
    out: &mut Vec<u8>,
    returns: u32,
    is_known: bool,
    parameters: &[u32],
    is_variadic: bool,
) -> Result<(), NoMemory>
    ensures { OnOk result (out.new.items ≡ out.old.items ++ spelled_node Two (function_node returns is_known parameters.now is_variadic)) }
{
    put_numbers(out, &[4, returns, number_of_flag(is_known)])?;
    put_list(out, parameters)?;
    put_number(out, number_of_flag(is_variadic))
}

/// A struct.
#[tactic(auto, unfolding(crate::specs::Spelling::spelled_node))]
fn read_struct(
    alloc: Global,
    version: Version,
    file: &[u8],
    at: usize,
) -> Result<Found<TypeNode>, CheckNo>
    ensures { ReadsBehind (number_bytes 5) (spelled_node version) file.now at result }
{
    let record = read_record(alloc, version, file, at)?;
    Ok(Found {
        value: TypeNode::Struct(record.value),
        behind: record.behind,
    })
}

/// A union.
#[tactic(auto, unfolding(crate::specs::Spelling::spelled_node))]
fn read_union(
    alloc: Global,
    version: Version,
    file: &[u8],
    at: usize,
) -> Result<Found<TypeNode>, CheckNo>
    ensures { ReadsBehind (number_bytes 6) (spelled_node version) file.now at result }
{
    let record = read_record(alloc, version, file, at)?;
    Ok(Found {
        value: TypeNode::Union(record.value),
        behind: record.behind,
    })
}

/// An enum.
#[tactic(auto, unfolding(crate::specs::Spelling::spelled_node))]
fn read_enum(
    alloc: Global,
    version: Version,
    file: &[u8],
    at: usize,
) -> Result<Found<TypeNode>, CheckNo>
    ensures { ReadsBehind (number_bytes 7) (spelled_node version) file.now at result }
{
    let tag = read_name(alloc, file, at)?;
    Ok(Found {
        value: TypeNode::Enum(tag.value),
        behind: tag.behind,
    })
}

/// Writes an enum.
fn put_enum(out: &mut Vec<u8>, tag: &[u8]) -> Result<(), NoMemory>
    ensures { OnOk result (out.new.items ≡ out.old.items ++ (number_bytes 7 ++ spelled_name tag.now)) }
{
    put_number(out, 7)?;
    put_name(out, tag)
}

/// A qualified type.
#[tactic(auto, unfolding(crate::specs::Spelling::spelled_node))]
fn read_qualified(version: Version, file: &[u8], at: usize) -> Result<Found<TypeNode>, CheckNo>
    ensures { ReadsBehind (number_bytes 8) (spelled_node version) file.now at result }
{
    let of = read_number(file, at)?;
    let number = read_number(file, of.behind)?;
    let bits = tagged(bits_of(number.value), of.behind, number.behind)?;
    Ok(Found {
        value: TypeNode::Qualified {
            of: of.value,
            bits: bits.value,
        },
        behind: bits.behind,
    })
}

impl Spelled for TypeNode {
    ghost spelled = { spelled_node };

    fn read(
        alloc: Global,
        version: Version,
        file: &[u8],
        at: usize,
    ) -> Result<Found<TypeNode>, CheckNo> {
        let tag = read_number(file, at)?;
        match tag.value {
            0 => Ok(Found {
                value: TypeNode::Void,
                behind: tag.behind,
            }),
            1 => read_basic(version, file, tag.behind),
            2 => read_pointer(version, file, tag.behind),
            3 => read_array(version, file, tag.behind),
            4 => read_function(alloc, version, file, tag.behind),
            5 => read_struct(alloc, version, file, tag.behind),
            6 => read_union(alloc, version, file, tag.behind),
            7 => read_enum(alloc, version, file, tag.behind),
            8 => read_qualified(version, file, tag.behind),
            _ => Err(bad(UnitFault::Tag, at)),
        }
    }

    #[tactic(auto, unfolding(crate::specs::Spelling::spelled_node))]
    fn put(&self, out: &mut Vec<u8>) -> Result<(), NoMemory> {
        match self {
            TypeNode::Void => put_number(out, 0),
            TypeNode::Basic(basic) => put_numbers(out, &[1, number_of_basic(*basic)]),
            TypeNode::Pointer(to) => put_numbers(out, &[2, *to]),
            TypeNode::Array { of, count } => put_numbers(out, &[3, *of, *count]),
            TypeNode::Function {
                returns,
                is_known,
                parameters,
                is_variadic,
            } => put_function(
                out,
                *returns,
                *is_known,
                parameters.as_slice(),
                *is_variadic,
            ),
            TypeNode::Struct(parts) => put_record(out, 5, parts),
            TypeNode::Union(parts) => put_record(out, 6, parts),
            TypeNode::Enum(tag) => put_enum(out, tag.as_slice()),
            TypeNode::Qualified { of, bits } => put_numbers(out, &[8, *of, *bits]),
        }
    }

    #[tactic(auto, using(crate::proofs::Bytes::lengths), unfolding(crate::specs::Spelling::spelled_node))]
    fn count(&self) -> u64 {
        match self {
            TypeNode::Void => 4,
            TypeNode::Basic(_) | TypeNode::Pointer(_) => 8,
            TypeNode::Array { .. } | TypeNode::Qualified { .. } => 12,
            TypeNode::Function { parameters, .. } => {
                count_list(parameters.as_slice()).saturating_add(16)
            }
            TypeNode::Struct(parts) | TypeNode::Union(parts) => count_record(parts),
            TypeNode::Enum(tag) => 8 + tag.as_slice().len() as u64,
        }
    }
}
