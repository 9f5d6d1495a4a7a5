//! Where the local objects of a function lie.

use crate::refusal::ElaborateNo;
use c_tree::{Entry, EntryOf, TypedFunction};
use c_types::TypeId;
use std::alloc::Global;

/// Where a scalar lvalue lies: in a slot, or in memory. There its root is a pointer to this type, and it lies so many bytes
/// behind that.
#[derive(Clone, Copy, Debug, PartialEq, Eq)]
pub enum Spot {
    Slot(u32),
    Memory { kind: TypeId, member: u32 },
}

/// Where a local object lies.
#[derive(Clone, Copy, Debug, PartialEq, Eq)]
pub enum LocalPlace {
    /// In this slot.
    Slot(u32),
    /// In this entry block.
    Entry(u32),
}

/// Where the local objects of a function lie, and which entry blocks its struct calls have.
#[derive(Drop)]
pub struct Locals {
    places: Vec<LocalPlace>,
    /// By the number of the call.
    calls: Vec<Option<u32>>,
    spare: u32,
}

/// A number of a list's items, at most 2^32 - 1.
pub fn count_of(len: usize) -> u32 {
    if len <= 0xffff_ffff {
        len as u32
    } else {
        u32::MAX
    }
}

/// The slots of so many locals, from one on.
fn slots_from(alloc: Global, first: u32, count: usize) -> Result<Vec<LocalPlace>, ElaborateNo> {
    let mut places = Vec::new(alloc);
    for local in 0..count {
        places.push(LocalPlace::Slot(first.saturating_add(count_of(local))))?;
    }
    Ok(places)
}

/// No struct calls, with room for so many.
fn no_calls(alloc: Global, count: usize) -> Result<Vec<Option<u32>>, ElaborateNo> {
    let mut calls = Vec::new(alloc);
    for _ in 0..count {
        calls.push(None)?;
    }
    Ok(calls)
}

impl Locals {
    /// Those of a function, in whose slots so many stand before those of its locals. It takes as many steps as the function has
    /// locals and entry blocks. Refused with `Misfit` where an entry block is for no local or struct call of the function, or is
    /// a second one.
    pub fn of(alloc: Global, before: u32, f: &TypedFunction) -> Result<Locals, ElaborateNo> {
        let mut locals = Locals {
            places: slots_from(alloc, before, f.locals.len())?,
            calls: no_calls(alloc, f.entries.len())?,
            spare: before.saturating_add(count_of(f.locals.len())),
        };
        if locals.all_entered(f.entries.as_slice()) {
            Ok(locals)
        } else {
            Err(ElaborateNo::Misfit)
        }
    }

    /// Puts the entry blocks, in order; whether each is for a local or struct call that has none.
    fn all_entered(&mut self, entries: &[Entry]) -> bool {
        let mut number = 0u32;
        let mut fits = true;
        for entry in entries {
            fits = self.entered(number, entry) && fits;
            number = number.saturating_add(1);
        }
        fits
    }

    /// Puts an entry block; whether it is for a local or struct call that has none.
    fn entered(&mut self, number: u32, entry: &Entry) -> bool {
        match entry.of {
            EntryOf::Local(local) => self.entered_local(number, local),
            EntryOf::Call(call) => self.entered_call(number, call),
        }
    }

    /// Puts the entry block of a local.
    fn entered_local(&mut self, number: u32, local: u32) -> bool {
        match self.places.get_mut(local as usize) {
            Some(place) => {
                let is_slot = matches!(place, LocalPlace::Slot(_));
                *place = LocalPlace::Entry(number);
                is_slot
            }
            None => false,
        }
    }

    /// Puts the entry block of a struct call.
    fn entered_call(&mut self, number: u32, call: u32) -> bool {
        match self.calls.get_mut(call as usize) {
            Some(place) => {
                let is_free = place.is_none();
                *place = Some(number);
                is_free
            }
            None => false,
        }
    }

    /// Where a local lies; None of a number that is none's.
    pub fn place(&self, local: u32) -> Option<LocalPlace> {
        self.places.get(local as usize).copied()
    }

    /// Whether a number is that of a local in a slot.
    pub fn is_slot(&self, local: u32) -> bool {
        matches!(self.place(local), Some(LocalPlace::Slot(_)))
    }

    /// The entry block of a struct call, by its number among those of the function; None of a number that is none's.
    pub fn call(&self, number: u32) -> Option<u32> {
        match self.calls.get(number as usize) {
            Some(entry) => *entry,
            None => None,
        }
    }

    /// The first of the two slots behind those of the locals, which hold words inside a row.
    pub fn spare(&self) -> u32 {
        self.spare
    }
}
