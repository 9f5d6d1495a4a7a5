//! Where the local objects of a function lie.

use crate::refusal::RowsNo;
use crate::row::Spot;
use c_tree::{Entry, EntryOf};
use fsc_base::NoMemory;
use std::alloc::Global;

/// Where a local object lies.
#[derive(Clone, Copy)]
pub(crate) enum Place {
    /// In a slot of the activation.
    AtSlot(u32),
    /// In one of its entry blocks.
    AtEntry(u32),
}

/// The local objects of a function, and the entry blocks of its struct calls.
#[derive(Drop)]
pub(crate) struct Locals {
    places: Vec<Place>,
    calls: Vec<Option<u32>>,
}

impl Locals {
    /// No local objects.
    pub fn none(alloc: Global) -> Locals {
        Locals {
            places: Vec::new(alloc),
            calls: Vec::new(alloc),
        }
    }

    /// So many local objects, of which those with an entry block lie there, and the others in slots from `before` on.
    pub fn new(
        alloc: Global,
        before: u32,
        count: usize,
        entries: &[Entry],
    ) -> Result<Locals, RowsNo> {
        let mut locals = Locals {
            places: slots_from(alloc, before, count)?,
            calls: vec![in alloc; None; entries.len()]?,
        };
        let mut number = 0;
        for entry in entries {
            locals.place_entry(number, entry.of)?;
            number = next_number(number)?;
        }
        Ok(locals)
    }

    /// The entry block with a number is that of a local object or of a call; the first one counts.
    fn place_entry(&mut self, number: u32, of: EntryOf) -> Result<(), RowsNo> {
        match of {
            EntryOf::Local(i) => self.place_local(i as usize, number),
            EntryOf::Call(i) => self.place_call(i as usize, number),
        }
    }

    fn place_local(&mut self, i: usize, number: u32) -> Result<(), RowsNo> {
        match self.places.get(i) {
            None => return Err(RowsNo::Misfit),
            Some(Place::AtEntry(_)) => return Ok(()),
            Some(Place::AtSlot(_)) => {}
        }
        if i < self.places.len() {
            self.places[i] = Place::AtEntry(number);
        }
        Ok(())
    }

    fn place_call(&mut self, i: usize, number: u32) -> Result<(), RowsNo> {
        match self.calls.get(i) {
            None => return Err(RowsNo::Misfit),
            Some(Some(_)) => return Ok(()),
            Some(None) => {}
        }
        if i < self.calls.len() {
            self.calls[i] = Some(number);
        }
        Ok(())
    }

    /// Where a local object lies.
    pub fn place(&self, i: u32) -> Result<Place, RowsNo> {
        match self.places.get(i as usize) {
            Some(place) => Ok(*place),
            None => Err(RowsNo::Misfit),
        }
    }

    /// The entry block of a struct call.
    pub fn call(&self, i: u32) -> Result<u32, RowsNo> {
        match self.calls.get(i as usize) {
            Some(Some(entry)) => Ok(*entry),
            _ => Err(RowsNo::Misfit),
        }
    }

    /// Where a scalar local object lies.
    pub fn spot(&self, i: u32) -> Result<Spot, RowsNo> {
        Ok(match self.place(i)? {
            Place::AtSlot(slot) => Spot::InSlot(slot),
            Place::AtEntry(_) => Spot::InMemory,
        })
    }
}

/// The next number, where it is one.
pub(crate) fn next_number(number: u32) -> Result<u32, RowsNo> {
    number.checked_add(1).ok_or(RowsNo::Misfit)
}

/// So many slots from one on.
fn slots_from(alloc: Global, first: u32, count: usize) -> Result<Vec<Place>, RowsNo> {
    let mut places = Vec::new(alloc);
    let mut slot = first;
    for _ in 0..count {
        push_slot(&mut places, slot)?;
        slot = next_number(slot)?;
    }
    Ok(places)
}

fn push_slot(places: &mut Vec<Place>, slot: u32) -> Result<(), NoMemory> {
    places.push(Place::AtSlot(slot))?;
    Ok(())
}
