//! Shapes, symbols and functions.

ghost use Rattle.std.specs.Prelude.{◌≡◌, ◌+◌, ◌-◌, ◌^◌, ◌≤◌, ◌++◌, ◌∷◌, [], length, min, OnOk};
ghost use Rattle.fat_code.specs.declared.fault.Version.TheVariants.{Two};
ghost use Rattle.unit_file.specs.Reading.{Reads, ReadsBehind};
ghost use Rattle.unit_file.specs.Spelling.{number as number_bytes, numbers, spelled_kind, spelled_shape, spelled_definition, spelled_symbol, spelled_entry, spelled_function};
ghost use Rattle.unit_file.specs.Tags.{linkage_tag};
ghost use Rattle.unit_file.specs.Tails.{spelled_tail, spelled_head};

use crate::number::{
    Found, bad, put_name, put_number, put_numbers, read_flag, read_name, read_number, tagged,
};
use crate::spelled::{Spelled, count_list, put_list, read_list};
use crate::tag::{kind_of, linkage_of, number_of_flag, number_of_kind, number_of_linkage};
use c_ops::{Definition, Linkage};
use fat_code::{CheckNo, FatEntry, FatFunction, FatSymbol, Op, UnitFault, Version};
use fsc_base::{Name, NoMemory, WordKind};
use sqlite_items::Items;
use std::alloc::Global;
use type_desc::Kinds;

impl Spelled for WordKind {
    ghost spelled = { λ version kind. spelled_kind kind };

    fn read(
        _alloc: Global,
        _version: Version,
        file: &[u8],
        at: usize,
    ) -> Result<Found<WordKind>, CheckNo> {
        let number = read_number(file, at)?;
        tagged(kind_of(number.value), at, number.behind)
    }

    fn put(&self, out: &mut Vec<u8>) -> Result<(), NoMemory> {
        put_number(out, number_of_kind(*self))
    }

    #[tactic(auto, using(crate::proofs::Bytes::lengths))]
    fn count(&self) -> u64 {
        4
    }
}

impl Spelled for Kinds {
    ghost spelled = { λ version kinds. spelled_shape kinds };

    fn read(
        alloc: Global,
        version: Version,
        file: &[u8],
        at: usize,
    ) -> Result<Found<Kinds>, CheckNo> {
        let kinds = read_list(alloc, version, file, at)?;
        Ok(Found {
            value: Kinds::from_vec(kinds.value),
            behind: kinds.behind,
        })
    }

    fn put(&self, out: &mut Vec<u8>) -> Result<(), NoMemory> {
        put_list(out, self.as_slice())
    }

    #[tactic(auto, using(crate::proofs::Bytes::lengths))]
    fn count(&self) -> u64 {
        count_list(self.as_slice())
    }
}

/// What defines a symbol.
fn read_definition(file: &[u8], at: usize) -> Result<Found<Definition>, CheckNo>
    ensures { Reads spelled_definition file.now at result }
{
    let tag = read_number(file, at)?;
    match tag.value {
        0 => Ok(Found {
            value: Definition::Missing,
            behind: tag.behind,
        }),
        1 => read_defining_function(file, tag.behind),
        2 => read_defining_object(file, tag.behind),
        _ => Err(bad(UnitFault::Tag, at)),
    }
}

/// The function that defines a symbol.
fn read_defining_function(file: &[u8], at: usize) -> Result<Found<Definition>, CheckNo>
    ensures { ReadsBehind (number_bytes 1) spelled_definition file.now at result }
{
    let index = read_number(file, at)?;
    Ok(Found {
        value: Definition::Function(index.value),
        behind: index.behind,
    })
}

/// The object that defines a symbol.
fn read_defining_object(file: &[u8], at: usize) -> Result<Found<Definition>, CheckNo>
    ensures { ReadsBehind (number_bytes 2) spelled_definition file.now at result }
{
    let index = read_number(file, at)?;
    Ok(Found {
        value: Definition::Object(index.value),
        behind: index.behind,
    })
}

/// Writes what defines a symbol.
fn put_definition(out: &mut Vec<u8>, definition: Definition) -> Result<(), NoMemory>
    ensures { OnOk result (out.new.items ≡ out.old.items ++ spelled_definition definition) }
{
    match definition {
        Definition::Missing => put_number(out, 0),
        Definition::Function(index) => put_numbers(out, &[1, index]),
        Definition::Object(index) => put_numbers(out, &[2, index]),
    }
}

/// How many bytes it takes.
#[tactic(auto, using(crate::proofs::Bytes::lengths))]
fn count_definition(definition: Definition) -> u64
    ensures count { result ≡ length (spelled_definition definition) }
    ensures few { result ≤ 8 }
{
    match definition {
        Definition::Missing => 4,
        Definition::Function(_) | Definition::Object(_) => 8,
    }
}

/// What a symbol has beside its name.
#[derive(Clone, Copy)]
struct SymbolTail {
    linkage: Linkage,
    kind: u32,
    used: bool,
    definition: Definition,
}

/// A linkage.
fn read_linkage(file: &[u8], at: usize) -> Result<Found<Linkage>, CheckNo>
    ensures { Reads (λ linkage. number_bytes (linkage_tag linkage)) file.now at result }
{
    let number = read_number(file, at)?;
    tagged(linkage_of(number.value), at, number.behind)
}

/// What a symbol has behind its name.
fn read_symbol_tail(file: &[u8], at: usize) -> Result<Found<SymbolTail>, CheckNo>
    ensures { Reads spelled_tail file.now at result }
{
    let linkage = read_linkage(file, at)?;
    let kind = read_number(file, linkage.behind)?;
    let used = read_flag(file, kind.behind)?;
    let definition = read_definition(file, used.behind)?;
    Ok(Found {
        value: SymbolTail {
            linkage: linkage.value,
            kind: kind.value,
            used: used.value,
            definition: definition.value,
        },
        behind: definition.behind,
    })
}

/// A symbol of these parts.
fn symbol(name: Name, tail: Found<SymbolTail>) -> Found<FatSymbol>
    ensures value { result.value ≡ record { name = name; linkage = tail.value.linkage; kind = tail.value.kind; used = tail.value.used; definition = tail.value.definition } }
    ensures behind { result.behind ≡ tail.behind }
{
    Found {
        value: FatSymbol {
            name,
            linkage: tail.value.linkage,
            kind: tail.value.kind,
            used: tail.value.used,
            definition: tail.value.definition,
        },
        behind: tail.behind,
    }
}

impl Spelled for FatSymbol {
    ghost spelled = { λ version symbol. spelled_symbol symbol };

    fn read(
        alloc: Global,
        _version: Version,
        file: &[u8],
        at: usize,
    ) -> Result<Found<FatSymbol>, CheckNo> {
        let name = read_name(alloc, file, at)?;
        let tail = read_symbol_tail(file, name.behind)?;
        Ok(symbol(name.value, tail))
    }

    fn put(&self, out: &mut Vec<u8>) -> Result<(), NoMemory> {
        put_name(out, self.name.as_slice())?;
        put_numbers(
            out,
            &[
                number_of_linkage(self.linkage),
                self.kind,
                number_of_flag(self.used),
            ],
        )?;
        put_definition(out, self.definition)
    }

    #[tactic(auto, using(crate::proofs::Bytes::lengths))]
    fn count(&self) -> u64 {
        16 + self.name.as_slice().len() as u64 + count_definition(self.definition)
    }
}

impl Spelled for FatEntry {
    ghost spelled = { λ version entry. spelled_entry entry };

    fn read(
        _alloc: Global,
        _version: Version,
        file: &[u8],
        at: usize,
    ) -> Result<Found<FatEntry>, CheckNo> {
        let size = read_number(file, at)?;
        let shape = read_number(file, size.behind)?;
        Ok(Found {
            value: FatEntry {
                size: size.value,
                shape: shape.value,
            },
            behind: shape.behind,
        })
    }

    fn put(&self, out: &mut Vec<u8>) -> Result<(), NoMemory> {
        put_numbers(out, &[self.size, self.shape])
    }

    #[tactic(auto, using(crate::proofs::Bytes::lengths))]
    fn count(&self) -> u64 {
        8
    }
}

/// The numbers of a function.
#[derive(Clone, Copy)]
struct FunctionHead {
    parameters: u32,
    slots: u32,
    is_variadic: bool,
}

/// The numbers of a function, in front of its lists.
fn read_function_head(file: &[u8], at: usize) -> Result<Found<FunctionHead>, CheckNo>
    ensures { Reads spelled_head file.now at result }
{
    let parameters = read_number(file, at)?;
    let slots = read_number(file, parameters.behind)?;
    let is_variadic = read_flag(file, slots.behind)?;
    Ok(Found {
        value: FunctionHead {
            parameters: parameters.value,
            slots: slots.value,
            is_variadic: is_variadic.value,
        },
        behind: is_variadic.behind,
    })
}

/// A function of these parts.
fn function(head: FunctionHead, entries: Vec<FatEntry>, ops: Found<Vec<Op>>) -> Found<FatFunction>
    ensures value { result.value ≡ record { parameters = head.parameters; slots = head.slots; is_variadic = head.is_variadic; entries = entries.items; ops = ops.value.items } }
    ensures behind { result.behind ≡ ops.behind }
{
    Found {
        value: FatFunction {
            parameters: head.parameters,
            slots: head.slots,
            is_variadic: head.is_variadic,
            entries: Items::from_vec(entries),
            ops: Items::from_vec(ops.value),
        },
        behind: ops.behind,
    }
}

impl Spelled for FatFunction {
    ghost spelled = { λ version function. spelled_function function };

    fn read(
        alloc: Global,
        version: Version,
        file: &[u8],
        at: usize,
    ) -> Result<Found<FatFunction>, CheckNo> {
        let head = read_function_head(file, at)?;
        let entries = read_list(alloc, version, file, head.behind)?;
        let ops = read_list(alloc, version, file, entries.behind)?;
        Ok(function(head.value, entries.value, ops))
    }

    fn put(&self, out: &mut Vec<u8>) -> Result<(), NoMemory> {
        put_numbers(
            out,
            &[
                self.parameters,
                self.slots,
                number_of_flag(self.is_variadic),
            ],
        )?;
        put_list(out, self.entries.as_slice())?;
        put_list(out, self.ops.as_slice())
    }

    #[tactic(auto, using(crate::proofs::Bytes::lengths))]
    fn count(&self) -> u64 {
        count_list(self.entries.as_slice())
            .saturating_add(count_list(self.ops.as_slice()))
            .saturating_add(12)
    }
}
