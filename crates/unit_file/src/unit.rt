//! Whole units.

ghost use Rattle.std.specs.Prelude.{◌≡◌, ◌+◌, ◌-◌, ◌^◌, ◌++◌, length, min, OnOk, IfOk, IfSome, IsNone};
ghost use Rattle.fat_code.specs.declared.fault.Version.TheVariants.{One, Two};
ghost use Rattle.unit_file.specs.Reading.{Reads};
ghost use Rattle.unit_file.specs.Spelling.{list_of, spelled_function, spelled_object, spelled_front, spelled_back, spelled_parts, spelled_unit};
ghost use Rattle.unit_file.specs.Tails.{spelled_front_of, spelled_back_of};
ghost use Rattle.unit_file.specs.Units.{IsOpened, IsVersion, ReadsVersion, ReadsWhole, ReadsFile, IsChecked, IsRefusal, ReadsUnit};

use crate::number::{Found, bad, put_number, read_number};
use crate::refusal::ReadUnitNo;
use crate::spelled::{count_list, put_list, read_list};
use c_types::TypeNode;
use fat_code::{
    CheckNo, FatFunction, FatObject, FatParts, FatSymbol, FatUnit, UnitFault, Version, fault_of,
};
use fsc_base::{Bytes, NoMemory};
use sqlite_items::Items;
use std::alloc::Global;
use type_desc::Kinds;

/// The greatest length of a unit file, in bytes: 2^28.
pub const MOST_FILE_BYTES: u32 = 0x1000_0000;

/// The bytes with which a file begins, but the version.
const MAGIC: [u8; 3] = [0x46, 0x53, 0x55];

/// The version that a byte tells.
fn version_of(byte: u8) -> Option<Version>
    ensures found { IfSome result (λ version. IsVersion version byte) }
    ensures none { IsNone result → (version : _) → IsVersion version byte → ⊥ }
{
    match byte {
        0x31 => Some(Version::One),
        0x32 => Some(Version::Two),
        _ => None,
    }
}

/// The version of a file, which stands behind its first three bytes.
fn read_version(file: &[u8]) -> Result<Version, CheckNo>
    ensures { ReadsVersion file.now result }
{
    match file {
        [first, second, third, version, ..] => {
            if [*first, *second, *third] != MAGIC {
                return Err(bad(UnitFault::Magic, 0));
            }
            match version_of(*version) {
                Some(version) => Ok(version),
                None => Err(bad(UnitFault::Version, 3)),
            }
        }
        _ => Err(bad(UnitFault::Short, file.len())),
    }
}

/// The types and shapes of a unit, and how many nodes its text has.
#[derive(Drop)]
struct Front {
    nodes: u32,
    types: Vec<TypeNode>,
    shapes: Vec<Kinds>,
}

/// These parts.
fn front_of(nodes: u32, types: Vec<TypeNode>, shapes: Found<Vec<Kinds>>) -> Found<Front>
    ensures value { result.value ≡ record { nodes = nodes; types = types; shapes = shapes.value } }
    ensures behind { result.behind ≡ shapes.behind }
{
    Found {
        value: Front {
            nodes,
            types,
            shapes: shapes.value,
        },
        behind: shapes.behind,
    }
}

/// The front of a unit, behind the version.
fn read_front(
    alloc: Global,
    version: Version,
    file: &[u8],
    at: usize,
) -> Result<Found<Front>, CheckNo>
    ensures { Reads (spelled_front_of version) file.now at result }
{
    let nodes = read_number(file, at)?;
    let types = read_list(alloc, version, file, nodes.behind)?;
    let shapes = read_list(alloc, version, file, types.behind)?;
    Ok(front_of(nodes.value, types.value, shapes))
}

/// The symbols, functions and objects of a unit.
#[derive(Drop)]
struct Back {
    symbols: Vec<FatSymbol>,
    functions: Vec<FatFunction>,
    objects: Vec<FatObject>,
}

/// These parts.
fn back_of(
    symbols: Vec<FatSymbol>,
    functions: Vec<FatFunction>,
    objects: Found<Vec<FatObject>>,
) -> Found<Back>
    ensures value { result.value ≡ record { symbols = symbols; functions = functions; objects = objects.value } }
    ensures behind { result.behind ≡ objects.behind }
{
    Found {
        value: Back {
            symbols,
            functions,
            objects: objects.value,
        },
        behind: objects.behind,
    }
}

/// The rest of a unit.
fn read_back(
    alloc: Global,
    version: Version,
    file: &[u8],
    at: usize,
) -> Result<Found<Back>, CheckNo>
    ensures { Reads spelled_back_of file.now at result }
{
    let symbols = read_list(alloc, version, file, at)?;
    let functions = read_list(alloc, version, file, symbols.behind)?;
    let objects = read_list(alloc, version, file, functions.behind)?;
    Ok(back_of(symbols.value, functions.value, objects))
}

/// A unit of these parts.
fn parts_of(front: Front, back: Found<Back>) -> Found<FatParts>
    ensures value { result.value ≡ record { nodes = front.nodes; types = front.types.items; shapes = front.shapes.items; symbols = back.value.symbols.items; functions = back.value.functions.items; objects = back.value.objects.items } }
    ensures behind { result.behind ≡ back.behind }
{
    Found {
        value: FatParts {
            nodes: front.nodes,
            types: Items::from_vec(front.types),
            shapes: Items::from_vec(front.shapes),
            symbols: Items::from_vec(back.value.symbols),
            functions: Items::from_vec(back.value.functions),
            objects: Items::from_vec(back.value.objects),
        },
        behind: back.behind,
    }
}

/// All parts of a unit, behind the version.
#[tactic(auto, unfolding(crate::specs::Spelling::spelled_parts))]
fn read_parts(
    alloc: Global,
    version: Version,
    file: &[u8],
    at: usize,
) -> Result<Found<FatParts>, CheckNo>
    ensures { Reads (spelled_parts version) file.now at result }
{
    let front = read_front(alloc, version, file, at)?;
    let back = read_back(alloc, version, file, front.behind)?;
    Ok(parts_of(front.value, back))
}

/// The parts of a whole file. Trailing where bytes follow the last field.
#[tactic(auto, unfolding(crate::specs::Spelling::spelled_unit))]
fn read_whole(alloc: Global, version: Version, file: &[u8]) -> Result<FatParts, CheckNo>
    requires { IsOpened version file.now }
    ensures { ReadsWhole version file.now result }
{
    let parts = read_parts(alloc, version, file, 4)?;
    if parts.behind < file.len() {
        return Err(bad(UnitFault::Trailing, parts.behind));
    }
    Ok(parts.value)
}

/// A whole file, and the test of its parts in their order.
fn read_file(alloc: Global, file: &[u8]) -> Result<FatUnit, CheckNo>
    ensures { ReadsFile file.now result }
{
    let version = read_version(file)?;
    let parts = read_whole(alloc, version, file)?;
    checked(alloc, version, parts)
}

/// The unit of parts that stood in a file of a version.
#[tactic(auto, unfolding(fat_code::specs::Faults::fault_of))]
fn checked(alloc: Global, version: Version, parts: FatParts) -> Result<FatUnit, CheckNo>
    ensures { IsChecked version parts result }
{
    match version {
        Version::One => checked_first(alloc, parts),
        Version::Two => FatUnit::checked(alloc, parts),
    }
}

/// The unit of parts that stood in a file of version 1.
#[tactic(auto, unfolding(fat_code::specs::Faults::fault_of))]
fn checked_first(alloc: Global, parts: FatParts) -> Result<FatUnit, CheckNo>
    ensures { IsChecked One parts result }
{
    match fault_of(alloc, &parts, Version::One)? {
        Some((fault, offset)) => Err(CheckNo::Fault(fault, offset)),
        None => FatUnit::checked(alloc, parts),
    }
}

/// A refusal, with its offset in 32 bits; a file has no others.
fn refusal(no: CheckNo) -> ReadUnitNo
    ensures { IsRefusal no result }
{
    match no {
        CheckNo::Fault(fault, offset) => match u32::try_from(offset) {
            Ok(offset) => ReadUnitNo::Bad { fault, offset },
            Err(_) => ReadUnitNo::NoMemory,
        },
        CheckNo::NoMemory => ReadUnitNo::NoMemory,
    }
}

/// The unit in a file of version 1 or 2, where the bytes are its spelling; what is read of version 2 is written back as the same
/// bytes. A file of version 1 has no bit-fields.
///
/// Refused as `Bad` where the bytes have a fault, with its offset. While reading, the first of these: `Limit` at 0 where there are
/// more than 2^28 bytes; `Short` at their number where they end inside a value; `Magic` at 0 and `Version` at 3 where the first four are
/// not those of a file; `Tag` at a tag or flag that is none of its values; `Trailing` at the first byte behind the last field. Then
/// `Index`, `Limit` and `Height` as `fat_code::fault_of` tells them. Refused as `NoMemory` where no memory was left for the unit.
pub fn read_unit(alloc: Global, bytes: &[u8]) -> Result<FatUnit, ReadUnitNo>
    ensures { ReadsUnit bytes.now result }
{
    if bytes.len() > MOST_FILE_BYTES as usize {
        return Err(ReadUnitNo::Bad {
            fault: UnitFault::Limit,
            offset: 0,
        });
    }
    match read_file(alloc, bytes) {
        Ok(unit) => Ok(unit),
        Err(no) => Err(refusal(no)),
    }
}

/// How many bytes the file of a unit has, of version 2; 2^28 + 1 where there are more than 2^28.
#[tactic(auto, using(crate::proofs::Bytes::lengths), unfolding(crate::specs::Spelling::spelled_unit))]
pub fn unit_len(unit: &FatUnit) -> u32
    ensures { result ≡ min (length (spelled_unit Two unit.now)) (2 ^ 28 + 1) }
{
    let bytes = count_parts(unit.parts());
    if bytes > u64::from(MOST_FILE_BYTES) {
        MOST_FILE_BYTES + 1
    } else {
        bytes as u32
    }
}

/// How many bytes the front of a unit takes.
#[tactic(auto, using(crate::proofs::Bytes::lengths))]
fn count_front(parts: &FatParts) -> u64
    ensures { result ≡ min (length (spelled_front Two parts.now.nodes parts.now.types parts.now.shapes)) (2 ^ 64 - 1) }
{
    let types = count_list(parts.types.as_slice());
    let shapes = count_list(parts.shapes.as_slice());
    types.saturating_add(shapes).saturating_add(4)
}

/// How many bytes the functions and objects of a unit take.
#[tactic(auto, using(crate::proofs::Bytes::lengths))]
fn count_code(parts: &FatParts) -> u64
    ensures { result ≡ min (length (list_of spelled_function parts.now.functions ++ list_of spelled_object parts.now.objects)) (2 ^ 64 - 1) }
{
    let functions = count_list(parts.functions.as_slice());
    let objects = count_list(parts.objects.as_slice());
    functions.saturating_add(objects)
}

/// How many bytes its rest takes.
#[tactic(auto, using(crate::proofs::Bytes::lengths))]
fn count_back(parts: &FatParts) -> u64
    ensures { result ≡ min (length (spelled_back parts.now.symbols parts.now.functions parts.now.objects)) (2 ^ 64 - 1) }
{
    count_list(parts.symbols.as_slice()).saturating_add(count_code(parts))
}

/// How many bytes all parts take with what stands in front of them.
#[tactic(auto, using(crate::proofs::Bytes::lengths), unfolding(crate::specs::Spelling::spelled_parts))]
fn count_parts(parts: &FatParts) -> u64
    ensures { result ≡ min (4 + length (spelled_parts Two parts.now)) (2 ^ 64 - 1) }
{
    count_front(parts)
        .saturating_add(count_back(parts))
        .saturating_add(4)
}

/// Writes the front of a unit.
fn put_front(out: &mut Vec<u8>, parts: &FatParts) -> Result<(), NoMemory>
    ensures { OnOk result (out.new.items ≡ out.old.items ++ spelled_front Two parts.now.nodes parts.now.types parts.now.shapes) }
{
    put_number(out, parts.nodes)?;
    put_list(out, parts.types.as_slice())?;
    put_list(out, parts.shapes.as_slice())
}

/// Writes its rest.
fn put_back(out: &mut Vec<u8>, parts: &FatParts) -> Result<(), NoMemory>
    ensures { OnOk result (out.new.items ≡ out.old.items ++ spelled_back parts.now.symbols parts.now.functions parts.now.objects) }
{
    put_list(out, parts.symbols.as_slice())?;
    put_list(out, parts.functions.as_slice())?;
    put_list(out, parts.objects.as_slice())
}

/// Writes all parts of a unit.
#[tactic(auto, unfolding(crate::specs::Spelling::spelled_parts))]
fn put_parts(out: &mut Vec<u8>, parts: &FatParts) -> Result<(), NoMemory>
    ensures { OnOk result (out.new.items ≡ out.old.items ++ spelled_parts Two parts.now) }
{
    put_front(out, parts)?;
    put_back(out, parts)
}

/// The file of a unit, of version 2. Refused only for want of memory, and where a list has 2^32 items or more. `unit_len` says whether
/// it has at most 2^28 bytes, as what is read has.
#[tactic(auto, unfolding(crate::specs::Spelling::spelled_unit))]
pub fn write_unit(alloc: Global, unit: &FatUnit) -> Result<Bytes, NoMemory>
    ensures { IfOk result (λ bytes. bytes ≡ spelled_unit Two unit.now) }
{
    let mut out = Vec::new(alloc);
    out.extend_from_slice(&[0x46, 0x53, 0x55, 0x32])?;
    put_parts(&mut out, unit.parts())?;
    Ok(Bytes::from_vec(out))
}
