//! The units of the library that a program uses.

ghost use Rattle.std.specs.Prelude.{◌<◌, ℕ, List, IfErr};
ghost use Rattle.fsc_outside.specs.Calls.{FileCounts};
ghost use Rattle.fsc_front.specs.Refusing.{IsCause, RefusesFront};
ghost use Rattle.fsc_core.specs.Refusing.{RefusesUnits};

use crate::compiling::fat_of;
use crate::refusal::CoreNo;
use c_ops::{Definition, Linkage};
use c_tree::TypedUnit;
use fat_code::{FatSymbol, FatUnit};
use fsc_base::{Broken, Bytes, Name, NoMemory, Rule};
use fsc_front::{FrontNo, typed_unit};
use fsc_outside::MemFiles;
use libc_wrap::{library_names, library_text};
use std::alloc::Global;

/// How many units the library has.
const UNITS: u32 = 37;

/// Whether a symbol uses that name with external linkage.
fn uses(symbol: &FatSymbol, name: &[u8]) -> bool {
    symbol.linkage == Linkage::External && symbol.used && symbol.name.as_slice() == name
}

/// Whether a symbol defines that name with external linkage.
fn defines(symbol: &FatSymbol, name: &[u8]) -> bool {
    symbol.linkage == Linkage::External
        && symbol.definition != Definition::Missing
        && symbol.name.as_slice() == name
}

/// Whether a symbol of these units uses that name.
fn is_used(units: &[FatUnit], name: &[u8]) -> bool {
    for unit in units {
        for symbol in unit.parts().symbols.as_slice() {
            if uses(symbol, name) {
                return true;
            }
        }
    }
    false
}

/// Whether a symbol of these units defines that name.
fn is_defined(units: &[FatUnit], name: &[u8]) -> bool {
    for unit in units {
        for symbol in unit.parts().symbols.as_slice() {
            if defines(symbol, name) {
                return true;
            }
        }
    }
    false
}

/// Whether a unit of the library, by the names that it defines, is to be added: the units use one of them that none of them
/// defines.
fn is_wanted(units: &[FatUnit], names: &[&[u8]]) -> bool {
    for name in names {
        if is_used(units, name) && !is_defined(units, name) {
            return true;
        }
    }
    false
}

/// The numbers of the units of the library that are added to these units, in the order of the library. Refused only for want of
/// memory.
pub fn wanted(alloc: Global, units: &[FatUnit]) -> Result<Vec<u32>, NoMemory> {
    let mut found = Vec::new(alloc);
    for k in 0..UNITS {
        if is_wanted(units, library_names(k)) {
            found.push(k)?;
        }
    }
    Ok(found)
}

/// The name of the file of a unit of the library: `lib` and its number.
fn file_name(alloc: Global, k: u32) -> Result<Name, NoMemory> {
    let Ok(digits) = k.to_string(alloc) else {
        return Err(NoMemory);
    };
    let mut name = Vec::from_slice(alloc, b"lib")?;
    name.extend_from_slice(digits.as_bytes())?;
    name.extend_from_slice(b".c")?;
    Ok(Name::from_vec(name))
}

/// The one file of a unit of the library.
fn files_of(alloc: Global, name: &Name, k: u32) -> Result<MemFiles, NoMemory>
    requires { k < 37 }
{
    let mut pairs = Vec::new(alloc);
    pairs.push((
        Name::from_slice(alloc, name.as_slice())?,
        Bytes::from_slice(alloc, library_text(k))?,
    ))?;
    MemFiles::new(alloc, &pairs, &[])
}

/// The refusal of a text of the library. Its own files are all there, so that none of them is the cause.
fn library_refusal(no: FrontNo) -> CoreNo
    ensures { (name : List ℕ) (own : FileCounts) → RefusesFront no name own → RefusesUnits result }
{
    match no {
        FrontNo::Broken(broken, file) => broken_library(broken, file),
        FrontNo::Missing => CoreNo::Misfit,
        FrontNo::FileFault(_) => CoreNo::Misfit,
        FrontNo::NoMemory => CoreNo::NoMemory,
    }
}

/// A rule that a text of the library breaks. No file is missed there, which K40 would say.
fn broken_library(broken: Broken, file: Name) -> CoreNo
    ensures { (own : FileCounts) → IsCause broken own → RefusesUnits result }
{
    if broken.rule == Rule::K40 {
        return CoreNo::Misfit;
    }
    CoreNo::Broken(broken, file)
}

/// A typed unit of the library, with the number that it has among the units of the program; None where the library has none with
/// that number. Its text is the one file `libK.c`. Refused as `Broken` where its text breaks a rule, as `Misfit` and as `NoMemory`.
pub fn library_unit(alloc: Global, k: u32, unit: u32) -> Result<Option<TypedUnit>, CoreNo>
    ensures refused { IfErr result RefusesUnits }
{
    if k >= UNITS {
        return Ok(None);
    }
    let name = file_name(alloc, k)?;
    let mut files = files_of(alloc, &name, k)?;
    match typed_unit(alloc, &mut files, unit, &name) {
        Ok(typed) => Ok(Some(typed)),
        Err(no) => Err(library_refusal(no)),
    }
}

/// A fat unit of the library, as `library_unit`.
fn compiled_unit(alloc: Global, k: u32, unit: u32) -> Result<Option<FatUnit>, CoreNo>
    ensures refused { IfErr result RefusesUnits }
{
    match library_unit(alloc, k, unit) {
        Ok(Some(typed)) => match fat_of(alloc, &typed) {
            Ok(unit) => Ok(Some(unit)),
            Err(no) => Err(no),
        },
        Ok(None) => Ok(None),
        Err(no) => Err(no),
    }
}

/// The fat units of the library with these numbers, behind `before` units of the program. Refused as `library_unit`.
pub fn compiled_library(alloc: Global, numbers: &[u32], before: u32) -> Result<Vec<FatUnit>, CoreNo>
    ensures refused { IfErr result RefusesUnits }
{
    let mut units = Vec::new(alloc);
    let mut unit = before;
    'units: for k in numbers {
        match compiled_unit(alloc, *k, unit) {
            Ok(Some(made)) => units.push(made)?,
            Ok(None) => {}
            Err(no) => return Err(no),
        }
        unit = unit.saturating_add(1);
    }
    Ok(units)
}
