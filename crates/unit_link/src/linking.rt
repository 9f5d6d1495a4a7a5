//! Linking.

use crate::counts::{first_m05, first_m06};
use crate::declarations::declarations_of;
use crate::definitions::{first_m02, first_m03, first_m04};
use crate::libraries::added;
use crate::refusal::LinkNo;
use crate::types::first_m01;
use c_link::LinkFault;
use fat_code::{FatParts, FatUnit, ProgramParts};
use fat_views::{copied_units, view_of};
use start_blocks::{BlockNumbers, LinkView, numbers_of, start_heap};
use std::alloc::Global;

/// The units of a program in link order: the user's, and then those of the library with these indices.
fn all_units<'a>(
    alloc: Global,
    users: &'a [FatUnit],
    library: &'a [FatUnit],
    added: &[u32],
) -> Result<Vec<&'a FatParts>, LinkNo> {
    let mut units = Vec::new(alloc);
    'users: for unit in users {
        units.push(unit.parts())?;
    }
    'added: for index in added {
        match library.get(*index as usize) {
            Some(unit) => units.push(unit.parts())?,
            None => return Err(LinkNo::Misfit),
        }
    }
    Ok(units)
}

fn views_of(alloc: Global, units: &[&FatParts]) -> Result<Vec<LinkView>, LinkNo> {
    let mut views = Vec::new(alloc);
    'units: for unit in units {
        views.push(view_of(alloc, unit)?)?;
    }
    Ok(views)
}

/// A rule of linking that is broken, if one is.
fn first_fault(
    alloc: Global,
    units: &[&FatParts],
    views: &[LinkView],
    users: usize,
) -> Result<Option<LinkFault>, LinkNo> {
    let names = declarations_of(alloc, views)?;
    let fault = first_m01(alloc, units, views, users, &names)?;
    if fault.is_some() {
        return Ok(fault);
    }
    let fault = first_m02(alloc, views, &names)?;
    if fault.is_some() {
        return Ok(fault);
    }
    let fault = first_m03(alloc, views, &names)?;
    if fault.is_some() {
        return Ok(fault);
    }
    let fault = first_m04(alloc, views, &names)?;
    if fault.is_some() {
        return Ok(fault);
    }
    count_fault(alloc, views)
}

fn count_fault(alloc: Global, views: &[LinkView]) -> Result<Option<LinkFault>, LinkNo> {
    let fault = first_m05(alloc, views)?;
    if fault.is_some() {
        return Ok(fault);
    }
    Ok(first_m06(alloc, views)?)
}

/// The program of units that break no rule.
fn program_of(
    alloc: Global,
    units: &[&FatParts],
    views: &[LinkView],
) -> Result<ProgramParts, LinkNo> {
    let numbers = numbers_of(alloc, views)?;
    let heap = start_heap(alloc, views, &numbers)?;
    let units = copied_units(alloc, units)?;
    let BlockNumbers {
        functions,
        symbols,
        objects,
        entry,
    } = numbers;
    Ok(ProgramParts {
        units,
        functions,
        symbols,
        objects,
        heap,
        entry,
    })
}

/// The program of the user's units, in link order, and of those units of the library that they want, in its order. Refused where a
/// rule of linking is broken, with the first of M01 to M06 that is, the name for which it is broken, and its texts (C90 6.1.2.2, 6.1.2.6,
/// 6.7); or with `NoMemory`. Its time grows as the units do, and it takes memory for copies of them and for all bytes of their
/// objects.
pub fn link(alloc: Global, users: &[FatUnit], library: &[FatUnit]) -> Result<ProgramParts, LinkNo> {
    let added = added(alloc, users, library)?;
    let units = all_units(alloc, users, library, added.as_slice())?;
    let views = views_of(alloc, &units)?;
    match first_fault(alloc, &units, &views, users.len())? {
        Some(fault) => Err(LinkNo::Refused(fault)),
        None => program_of(alloc, &units, &views),
    }
}
