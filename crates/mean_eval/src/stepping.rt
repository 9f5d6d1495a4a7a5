//! One step of a run.

use crate::access::{peeks, reads, stores, writes};
use crate::assignment::{combines, copies, increments};
use crate::call::{calls, copies_out, fills, fills_record, makes, makes_extra, receives, returns};
use crate::control::{and_then, branches, or_else, selects, tests};
use crate::initialiser::{clears, copies_in, initialises, sets};
use crate::primitive::performs;
use crate::value::{
    drops, gives, indexes, locates, lowers, moves, names, narrows, operates, spans, stays, truth,
    turns,
};
use mean_rows::{Act, Callee, Row};
use mean_state::{Action, Moment, Stop};

/// Does the row at the place that is reached, of these rows, where the functions are those by the numbers of their blocks, from 1. A
/// step that takes a byte of the input is to be followed by `taken`. What a step that stops leaves is not told.
pub fn step(m: &mut Moment, rows: &[Row], callees: &[Option<Callee>]) -> Result<Action, Stop> {
    let own = m.place();
    let row = match rows.get(own as usize) {
        Some(row) => *row,
        None => return Err(Stop::Misfit),
    };
    m.go(row.next);
    match row.act {
        Act::Calls(arguments) => calls(m, callees, arguments, row.next),
        Act::Returns => returns(m, own),
        act => act_by(m, act),
    }
}

/// One function a row. A call and a return are done by `step`.
fn act_by(m: &mut Moment, act: Act) -> Result<Action, Stop> {
    match act {
        Act::Gives(value) => gives(m, value),
        Act::Names(block) => names(m, block),
        Act::Locates(entry) => locates(m, entry),
        Act::Stays => stays(),
        Act::Moves(offset) => moves(m, offset),
        Act::Indexes(pointer, size) => indexes(m, pointer, size),
        Act::Lowers(size) => lowers(m, size),
        Act::Spans(size) => spans(m, size),
        Act::Narrows { width, is_signed } => narrows(m, width, is_signed),
        Act::Casts => stays(),
        Act::Turns(op) => turns(m, op),
        Act::Operates(op) => operates(m, op),
        Act::Reads(spot, access) => reads(m, spot, access),
        Act::Peeks(spot, access) => peeks(m, spot, access),
        Act::Stores(spot, access) => stores(m, spot, access),
        Act::Combines(spot, op, access) => combines(m, spot, op, access),
        Act::Increments(spot, op, is_prefix, access) => {
            increments(m, spot, op, is_prefix, access)
        }
        Act::Writes { first, count } => writes(m, first, count),
        Act::Copies(size) => copies(m, size),
        Act::AndThen(right) => and_then(m, right),
        Act::OrElse(right) => or_else(m, right),
        Act::Truth => truth(m),
        Act::Chooses(other) => branches(m, other),
        Act::Drops => drops(m),
        Act::Receives { entry, below } => receives(m, entry, below),
        Act::Performs(primitive) => performs(m, primitive),
        Act::Branches(other) => branches(m, other),
        Act::Tests(body) => tests(m, body),
        Act::Until(again) => tests(m, again),
        Act::Selects { value, to } => selects(m, value, to),
        Act::SelectsDefault => drops(m),
        Act::Loops
        | Act::Around
        | Act::Repeats
        | Act::Again
        | Act::EndsSwitch
        | Act::Here
        | Act::Goes
        | Act::Breaks
        | Act::Continues => stays(),
        Act::Sets(slot) => sets(m, slot),
        Act::Clears { entry, size } => clears(m, entry, size),
        Act::Initialises {
            entry,
            offset,
            access,
        } => initialises(m, entry, offset, access),
        Act::CopiesIn {
            entry,
            offset,
            size,
        } => copies_in(m, entry, offset, size),
        Act::CopiesOut(size) => copies_out(m, size),
        Act::MakesExtra => makes_extra(m),
        Act::Makes(size) => makes(m, size),
        Act::Fills { slot, entry, width } => fills(m, slot, entry, width),
        Act::FillsRecord { slot, entry, size } => fills_record(m, slot, entry, size),
        Act::Calls(_) | Act::Returns => Err(Stop::Misfit),
    }
}
