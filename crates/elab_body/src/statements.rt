//! The operations of statements (C90 6.6). No words are on the stack before and behind one.

use crate::expressions::expression;
use crate::lengths::expression_length;
use crate::pieces::{pieces_in_entry, pieces_in_slot};
use crate::statement_lengths::{does_something, statement_length};
use c_tree::{Piece, TExpr, TStatement};
use c_types::TypeId;
use elab_code::{Around, Emitter, Loop};
use elab_setting::LocalPlace;

/// Those of a statement, where `break` and `continue` go around it. The types are those of the function's locals.
#[cycle(statements)]
pub(crate) fn statement(out: &mut Emitter, kinds: &[TypeId], around: Around, s: &TStatement) {
    match s {
        TStatement::Empty => {}
        TStatement::Expression(e) => dropped(out, e),
        TStatement::Compound(items) => statements(out, kinds, around, items.as_slice()),
        TStatement::Initialise {
            local,
            size,
            is_aggregate,
            pieces,
        } => initialises(out, kinds, *local, *size, *is_aggregate, pieces.as_slice()),
        TStatement::If(e, s) => {
            begins_branch(out, e, s.get());
            statement(out, kinds, around, s.get());
            out.label(0);
        }
        TStatement::IfElse(e, s, t) => {
            if does_something(out.locals(), t.get()) {
                let other = begins_choice(out, e, s.get());
                statement(out, kinds, around, s.get());
                turns_choice(out, other, t.get());
                statement(out, kinds, around, t.get());
                out.label(0);
            } else {
                begins_branch(out, e, s.get());
                statement(out, kinds, around, s.get());
                out.label(0);
            }
        }
        TStatement::While(e, s) => {
            let place = begins_while(out, e, s.get());
            statement(out, kinds, place.around(), s.get());
            out.label(0);
            out.ends_loop(place);
        }
        TStatement::DoWhile(s, e) => {
            let place = begins_repeat(out, s.get(), e);
            statement(out, kinds, place.around(), s.get());
            ends_repeat(out, place, e);
        }
        TStatement::For {
            start,
            test,
            step,
            body,
        } => {
            let place = begins_for(out, start, test, step, body.get());
            statement(out, kinds, place.around(), body.get());
            ends_for(out, place, step);
        }
        TStatement::Switch(e, s) => {
            let inside = begins_switch(out, e, s.get(), around);
            statement(out, kinds, inside, s.get());
            out.label(0);
        }
        TStatement::Case(_, s) => {
            out.label(0);
            statement(out, kinds, around, s.get());
        }
        TStatement::Default(s) => {
            out.label(0);
            statement(out, kinds, around, s.get());
        }
        TStatement::Labelled(_, s) => {
            out.label(0);
            statement(out, kinds, around, s.get());
        }
        TStatement::Goto(label) => out.goes(*label),
        TStatement::Break => out.breaks(around),
        TStatement::Continue => out.continues(around),
        TStatement::Return => {
            out.gives(0);
            out.returns();
        }
        TStatement::ReturnValue(e) => {
            expression(out, e, 0);
            out.returns();
        }
        TStatement::ReturnRecord(e, size) => {
            expression(out, e, 0);
            out.copies_out(*size);
            out.returns();
        }
    }
}

/// Those of statements.
#[cycle(statements)]
fn statements(out: &mut Emitter, kinds: &[TypeId], around: Around, items: &[TStatement]) {
    for s in items {
        statement(out, kinds, around, s);
    }
}

/// An expression whose value is dropped (C90 6.6.3).
fn dropped(out: &mut Emitter, e: &TExpr) {
    expression(out, e, 0);
    out.drops();
}

/// The same where there is one.
fn dropped_optional(out: &mut Emitter, e: &Option<TExpr>) {
    if let Some(e) = e {
        dropped(out, e);
    }
}

/// The operations of an expression that may be left out, with so many more.
fn optional_length(out: &Emitter, e: &Option<TExpr>, own: u32) -> u32 {
    match e {
        Some(e) => expression_length(out.locals(), e).saturating_add(own),
        None => 0,
    }
}

/// An initialiser (C90 6.5.7). An aggregate is cleared first.
fn initialises(
    out: &mut Emitter,
    kinds: &[TypeId],
    local: u32,
    size: u32,
    is_aggregate: bool,
    pieces: &[Piece],
) {
    let kind = kinds.get(local as usize).copied();
    match (out.locals().place(local), kind) {
        (Some(LocalPlace::Slot(slot)), _) => pieces_in_slot(out, slot, pieces),
        (Some(LocalPlace::Entry(entry)), Some(kind)) => {
            if is_aggregate {
                out.clears(entry, size);
            }
            pieces_in_entry(out, entry, kind, pieces);
        }
        (_, _) => out.misfits(),
    }
}

/// `if` without `else`, up to its body.
fn begins_branch(out: &mut Emitter, e: &TExpr, body: &TStatement) {
    expression(out, e, 0);
    let length = statement_length(out.locals(), body);
    out.begins_branch(length);
}

/// `if` with `else`, up to its first body. Gives where the other stands.
fn begins_choice(out: &mut Emitter, e: &TExpr, first: &TStatement) -> u32 {
    expression(out, e, 0);
    let length = statement_length(out.locals(), first);
    out.begins_choice(length)
}

/// The same between the two.
fn turns_choice(out: &mut Emitter, other: u32, second: &TStatement) {
    let length = statement_length(out.locals(), second);
    out.turns_choice(other, length, 0);
}

/// `while`, up to its body.
fn begins_while(out: &mut Emitter, e: &TExpr, body: &TStatement) -> Loop {
    let test = expression_length(out.locals(), e);
    let length = statement_length(out.locals(), body);
    let place = out.begins_loop(true, test, length, 0);
    expression(out, e, 0);
    out.tests_loop(place, true);
    place
}

/// `for`, up to its body.
fn begins_for(
    out: &mut Emitter,
    start: &Option<TExpr>,
    test: &Option<TExpr>,
    step: &Option<TExpr>,
    body: &TStatement,
) -> Loop {
    dropped_optional(out, start);
    let is_tested = test.is_some();
    let tested = optional_length(out, test, 0);
    let stepped = optional_length(out, step, 1);
    let length = statement_length(out.locals(), body);
    let place = out.begins_loop(is_tested, tested, length, stepped);
    if let Some(e) = test {
        expression(out, e, 0);
    }
    out.tests_loop(place, is_tested);
    place
}

/// The same behind its body.
fn ends_for(out: &mut Emitter, place: Loop, step: &Option<TExpr>) {
    out.label(0);
    dropped_optional(out, step);
    out.ends_loop(place);
}

/// `do`, up to its body.
fn begins_repeat(out: &mut Emitter, body: &TStatement, e: &TExpr) -> Loop {
    let length = statement_length(out.locals(), body);
    let test = expression_length(out.locals(), e);
    out.begins_repeat(length, test)
}

/// The same behind its body.
fn ends_repeat(out: &mut Emitter, place: Loop, e: &TExpr) {
    out.label(0);
    expression(out, e, 0);
    out.ends_repeat(place);
}

/// `switch`, up to its body. Gives where `break` and `continue` go in it.
fn begins_switch(out: &mut Emitter, e: &TExpr, body: &TStatement, around: Around) -> Around {
    expression(out, e, 0);
    let length = statement_length(out.locals(), body);
    out.begins_switch(length, around)
}
