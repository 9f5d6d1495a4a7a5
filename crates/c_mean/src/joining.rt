//! Joining units to a program (C90 5.1.1.2, 6.1.2.2).

use crate::program::Program;
use c_tree::{TypedFunction, TypedUnit};
use fsc_base::NoMemory;
use mean_rows::{Callee, RowsNo, Translator, UnitBlocks};
use sqlite_items::Items;
use start_blocks::{BlockNumbers, LinkView, StartNo, numbers_of};
use std::alloc::{AllocError, AllocFailed, Global};
use typed_view::view_of;

/// Why units are not joined.
#[derive(Clone, Copy, Debug, PartialEq, Eq)]
pub enum JoinNo {
    /// A number in a unit names nothing, or there is no function `main`. No units are such that the checker gives and linking
    /// accepts.
    Misfit,
    /// No memory was left.
    NoMemory,
}

impl From<NoMemory> for JoinNo {
    fn from(_refusal: NoMemory) -> JoinNo {
        JoinNo::NoMemory
    }
}

impl From<AllocError> for JoinNo {
    fn from(_error: AllocError) -> JoinNo {
        JoinNo::NoMemory
    }
}

impl<T: Drop> From<AllocFailed<T>> for JoinNo {
    fn from(_error: AllocFailed<T>) -> JoinNo {
        JoinNo::NoMemory
    }
}

impl From<RowsNo> for JoinNo {
    fn from(refusal: RowsNo) -> JoinNo {
        match refusal {
            RowsNo::Misfit => JoinNo::Misfit,
            RowsNo::NoMemory => JoinNo::NoMemory,
        }
    }
}

impl From<StartNo> for JoinNo {
    fn from(refusal: StartNo) -> JoinNo {
        match refusal {
            StartNo::Misfit | StartNo::Full => JoinNo::Misfit,
            StartNo::NoMemory => JoinNo::NoMemory,
        }
    }
}

fn views_of(alloc: Global, units: &[TypedUnit]) -> Result<Vec<LinkView>, JoinNo> {
    let mut views = Vec::new(alloc);
    'units: for unit in units {
        views.push(view_of(alloc, unit)?)?;
    }
    Ok(views)
}

/// A function of the unit that was entered.
fn add_function(
    translator: &mut Translator<'_>,
    callees: &mut Vec<Option<Callee>>,
    u: &TypedUnit,
    f: &TypedFunction,
) -> Result<(), JoinNo> {
    let callee = translator.function(u, f)?;
    callees.push(Some(callee))?;
    Ok(())
}

fn add_functions(
    translator: &mut Translator<'_>,
    callees: &mut Vec<Option<Callee>>,
    u: &TypedUnit,
) -> Result<(), JoinNo> {
    'functions: for f in u.functions.as_slice() {
        add_function(translator, callees, u, f)?;
    }
    Ok(())
}

/// The objects behind the functions are none.
fn skip_objects(callees: &mut Vec<Option<Callee>>, count: usize) -> Result<(), JoinNo> {
    'objects: for _ in 0..count {
        callees.push(None)?;
    }
    Ok(())
}

/// The blocks of a unit that its rows name.
fn blocks_of(numbers: &BlockNumbers, unit: usize) -> Result<UnitBlocks<'_>, JoinNo> {
    match (numbers.symbols.get(unit), numbers.objects.get(unit)) {
        (Some(symbols), Some(objects)) => Ok(UnitBlocks {
            symbols: symbols.as_slice(),
            objects: objects.as_slice(),
        }),
        _ => Err(JoinNo::Misfit),
    }
}

/// The functions of all units, and a place for each object, in the order of their blocks.
fn add_units<'a>(
    translator: &mut Translator<'a>,
    callees: &mut Vec<Option<Callee>>,
    units: &[TypedUnit],
    numbers: &'a BlockNumbers,
) -> Result<(), JoinNo> {
    'units: for (i, u) in units.iter().enumerate() {
        translator.enter(blocks_of(numbers, i)?);
        add_functions(translator, callees, u)?;
        skip_objects(callees, u.objects.len())?;
    }
    Ok(())
}

/// The program of units in link order, of which the added library units are the last. Asks for units that the checker gives, and
/// that break no rule of linking; refused with `Misfit` where they are none, or with `NoMemory`.
pub fn join(alloc: Global, units: Items<TypedUnit>) -> Result<Program, JoinNo> {
    let units = units.as_slice();
    let views = views_of(alloc, units)?;
    let numbers = numbers_of(alloc, &views)?;
    if numbers.entry == 0 {
        return Err(JoinNo::Misfit);
    }
    let mut callees = Vec::new(alloc);
    let (rows, start) = {
        let mut translator = Translator::new(alloc);
        add_units(&mut translator, &mut callees, units, &numbers)?;
        let start = translator.start()?;
        (translator.into_rows(), start)
    };
    Ok(Program {
        rows,
        callees,
        start,
        views,
        numbers,
    })
}
