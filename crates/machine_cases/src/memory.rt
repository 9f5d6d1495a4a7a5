//! Memory of guests.

use crate::draft::Draft;
use crate::streams::{Streams, name_of};
use crate::told::{Told, tell, tell_number, tell_whether};
use case_table::{NoStep, bytes_of_text, number_of, text_of};
use fsc_outside::{MemSink, MemSource, Wrote};
use guest_mem::{Fault, Filled, Guest, Right, StoreNo};
use std::alloc::Global;

/// The guests of a case. A step is done on each, and its answer is what all of them answer.
#[derive(Drop)]
pub struct Guests {
    items: Vec<Guest>,
}

/// What came of a load or a fetch.
fn tell_loaded(alloc: Global, loaded: Result<u32, Fault>) -> Told {
    match loaded {
        Ok(number) => tell_number(alloc, number),
        Err(Fault::Misaligned) => tell(alloc, "misaligned"),
        Err(Fault::Outside) => tell(alloc, "outside"),
    }
}

/// What came of a store.
fn tell_stored(alloc: Global, stored: Result<(), StoreNo>) -> Told {
    match stored {
        Ok(()) => tell(alloc, "ok"),
        Err(StoreNo::Misaligned) => tell(alloc, "misaligned"),
        Err(StoreNo::Outside) => tell(alloc, "outside"),
        Err(StoreNo::NoMemory) => Err(NoStep::NoMemory),
    }
}

/// The right of that name.
fn right_of(name: &str) -> Result<Right, NoStep> {
    match name {
        "execute" => Ok(Right::Execute),
        "write" => Ok(Right::Write),
        "read" => Ok(Right::Read),
        _ => Err(NoStep::Malformed("no such right")),
    }
}

/// A number that is too large for the bytes that are stored.
const TOO_LARGE: NoStep = NoStep::Malformed("too large a number");

/// Loads and fetches.
fn load_step(guest: &Guest, alloc: Global, name: &str, at: &str) -> Told {
    match name {
        "load8" => tell_loaded(alloc, guest.load8(number_of(at)?).map(u32::from)),
        "load16" => tell_loaded(alloc, guest.load16(number_of(at)?).map(u32::from)),
        "load32" => tell_loaded(alloc, guest.load32(number_of(at)?)),
        "fetch" => tell_loaded(alloc, guest.fetch(number_of(at)?)),
        _ => Ok(None),
    }
}

/// Stores of a number.
fn store_step(guest: &mut Guest, alloc: Global, words: [&str; 3]) -> Told {
    let [name, at, value] = words;
    match name {
        "store8" => {
            let value = u8::try_from(number_of(value)?).map_err(|_| TOO_LARGE)?;
            tell_stored(alloc, guest.store8(number_of(at)?, value))
        }
        "store16" => {
            let value = u16::try_from(number_of(value)?).map_err(|_| TOO_LARGE)?;
            tell_stored(alloc, guest.store16(number_of(at)?, value))
        }
        "store32" => tell_stored(alloc, guest.store32(number_of(at)?, number_of(value)?)),
        _ => Ok(None),
    }
}

/// The bytes, where they lie in a segment that may be read.
fn read_into(guest: &Guest, alloc: Global, at: u32, n: u32) -> Told {
    if !guest.covers(at, n, Right::Read) {
        return tell(alloc, "not covered");
    }
    let mut sink = MemSink::new(alloc, &[])?;
    match guest.write_to(at, n, &mut sink) {
        Wrote::Whole => Ok(Some(text_of(alloc, sink.bytes())?)),
        Wrote::Failed | Wrote::NoMemory => Err(NoStep::NoMemory),
    }
}

/// Makes these the bytes, where they lie in a segment that may be written.
fn write_from(guest: &mut Guest, alloc: Global, at: u32, bytes: &[u8]) -> Told {
    match u32::try_from(bytes.len()) {
        Ok(n) if guest.covers(at, n, Right::Write) => {
            guest.ready(at, n)?;
            guest.fill_from(at, n, &mut MemSource::new(alloc, bytes, &[])?);
            tell(alloc, "ok")
        }
        _ => tell(alloc, "not covered"),
    }
}

/// Fills memory from the input, where it lies in a segment that may be written.
fn fill_from(guest: &mut Guest, alloc: Global, at: u32, n: u32, streams: &mut Streams) -> Told {
    if !guest.covers(at, n, Right::Write) {
        return tell(alloc, "not covered");
    }
    guest.ready(at, n)?;
    match guest.fill_from(at, n, &mut streams.input) {
        Filled::Read(count) => Ok(Some(format!(in alloc; "read {count}")?)),
        Filled::Failed(count) => Ok(Some(format!(in alloc; "failed {count}")?)),
    }
}

/// Writes memory to the output, where it lies in a segment that may be read.
fn write_to(guest: &Guest, alloc: Global, at: u32, n: u32, streams: &mut Streams) -> Told {
    if !guest.covers(at, n, Right::Read) {
        return tell(alloc, "not covered");
    }
    tell(alloc, name_of(guest.write_to(at, n, &mut streams.out)))
}

/// Does a step on one guest.
fn step_on(guest: &mut Guest, alloc: Global, words: &[&str], streams: &mut Streams) -> Told {
    match words {
        ["covers", at, n, right] => {
            let (at, n) = (number_of(at)?, number_of(n)?);
            tell_whether(alloc, guest.covers(at, n, right_of(right)?))
        }
        ["read_into", at, n] => read_into(guest, alloc, number_of(at)?, number_of(n)?),
        ["write_from", at, text] => {
            write_from(guest, alloc, number_of(at)?, &bytes_of_text(alloc, text)?)
        }
        ["fill_from", at, n] => fill_from(guest, alloc, number_of(at)?, number_of(n)?, streams),
        ["write_to", at, n] => write_to(guest, alloc, number_of(at)?, number_of(n)?, streams),
        [name, at] => load_step(guest, alloc, name, at),
        [name, at, value] => store_step(guest, alloc, [name, at, value]),
        _ => Ok(None),
    }
}

impl Guests {
    /// No guest.
    pub fn new(alloc: Global) -> Guests {
        Guests {
            items: Vec::new(alloc),
        }
    }

    /// Makes so many guests of what is written down, in place of those that are there.
    fn make(&mut self, alloc: Global, draft: &Draft, count: u32) -> Told {
        let image = draft.image(alloc, Vec::new(alloc), None)?;
        if !image.is_sound() {
            return tell(alloc, "unsound");
        }
        self.items.clear();
        for _ in 0..count {
            self.items.push(Guest::new(alloc, &image)?)?;
        }
        tell(alloc, "ok")
    }

    /// Does a step on each guest. What they all answer.
    fn each(&mut self, alloc: Global, words: &[&str], streams: &mut Streams) -> Told {
        let mut answer: Option<String> = None;
        for guest in self.items.iter_mut() {
            let Some(next) = step_on(guest, alloc, words, streams)? else {
                return Ok(None);
            };
            match &answer {
                Some(before) if before.as_str() != next.as_str() => return tell(alloc, "apart"),
                _ => answer = Some(next),
            }
        }
        Ok(answer)
    }

    /// Does a step of memory.
    pub fn step(
        &mut self,
        alloc: Global,
        words: &[&str],
        draft: &Draft,
        streams: &mut Streams,
    ) -> Told {
        match words {
            ["guest"] => self.make(alloc, draft, 1),
            ["guests", count] => self.make(alloc, draft, number_of(count)?),
            _ => self.each(alloc, words, streams),
        }
    }
}
