//! How many operations statements have.

use crate::lengths::with_expression;
use crate::pieces::{with_entry_pieces, with_slot_pieces};
use c_tree::{Piece, TExpr, TStatement};
use elab_setting::{LocalPlace, Locals, head_length};

/// `before` and so many more.
fn more(before: u32, count: u32) -> u32 {
    before.saturating_add(count)
}

/// `before` and the cases of a switch with that body; those of a switch inside it are not its own.
#[cycle(cases)]
pub(crate) fn with_cases(before: u32, s: &TStatement) -> u32 {
    match s {
        TStatement::Case(_, s) => with_cases(more(before, 1), s.get()),
        TStatement::Default(s) => with_cases(before, s.get()),
        TStatement::Labelled(_, s) => with_cases(before, s.get()),
        TStatement::Compound(statements) => with_all_cases(before, statements.as_slice()),
        TStatement::If(_, s) => with_cases(before, s.get()),
        TStatement::IfElse(_, s, t) => with_cases(with_cases(before, s.get()), t.get()),
        TStatement::While(_, s) => with_cases(before, s.get()),
        TStatement::DoWhile(s, _) => with_cases(before, s.get()),
        TStatement::For { body, .. } => with_cases(before, body.get()),
        TStatement::Empty
        | TStatement::Expression(_)
        | TStatement::Initialise { .. }
        | TStatement::Switch(_, _)
        | TStatement::Goto(_)
        | TStatement::Break
        | TStatement::Continue
        | TStatement::Return
        | TStatement::ReturnValue(_)
        | TStatement::ReturnRecord(_, _) => before,
    }
}

/// The same of statements.
#[cycle(cases)]
fn with_all_cases(before: u32, statements: &[TStatement]) -> u32 {
    let mut count = before;
    for s in statements {
        count = with_cases(count, s);
    }
    count
}

/// Whether anything is done for a statement: not for an empty block, nor for an initialiser that stores nothing.
#[cycle(done)]
pub(crate) fn does_something(locals: &Locals, s: &TStatement) -> bool {
    match s {
        TStatement::Compound(statements) => some_does(locals, statements.as_slice()),
        TStatement::Initialise {
            local,
            is_aggregate,
            pieces,
            ..
        } => pieces.len() > 0 || (*is_aggregate && !locals.is_slot(*local)),
        _ => true,
    }
}

/// The same of one of these statements.
#[cycle(done)]
fn some_does(locals: &Locals, statements: &[TStatement]) -> bool {
    let mut does = false;
    for s in statements {
        does = does || does_something(locals, s);
    }
    does
}

/// `before` and the operations of an initialiser.
pub(crate) fn with_initialiser(
    locals: &Locals,
    before: u32,
    local: u32,
    is_aggregate: bool,
    pieces: &[Piece],
) -> u32 {
    match locals.place(local) {
        Some(LocalPlace::Entry(_)) => {
            let cleared = if is_aggregate { 2 } else { 0 };
            with_entry_pieces(locals, more(before, cleared), pieces)
        }
        Some(LocalPlace::Slot(_)) | None => with_slot_pieces(locals, before, pieces),
    }
}

/// `before` and the operations of an expression that may be left out, with so many more.
pub(crate) fn with_optional(locals: &Locals, before: u32, e: &Option<TExpr>, own: u32) -> u32 {
    match e {
        Some(e) => more(with_expression(locals, before, e), own),
        None => before,
    }
}

/// `before` and the operations of a `for` without its body.
fn with_for(
    locals: &Locals,
    before: u32,
    start: &Option<TExpr>,
    test: &Option<TExpr>,
    step: &Option<TExpr>,
) -> u32 {
    let started = with_optional(locals, before, start, 1);
    let tested = with_optional(locals, started, test, 1);
    more(with_optional(locals, tested, step, 1), 4)
}

/// `before` and the operations of a switch without its body.
fn with_switch(locals: &Locals, before: u32, e: &TExpr, body: &TStatement) -> u32 {
    let head = head_length(with_cases(0, body));
    more(with_expression(locals, before, e), more(head, 1))
}

/// `before` and the operations of a statement.
#[cycle(lengths)]
pub(crate) fn with_statement(locals: &Locals, before: u32, s: &TStatement) -> u32 {
    match s {
        TStatement::Empty => before,
        TStatement::Expression(e) => more(with_expression(locals, before, e), 1),
        TStatement::Compound(statements) => with_statements(locals, before, statements.as_slice()),
        TStatement::Initialise {
            local,
            is_aggregate,
            pieces,
            ..
        } => with_initialiser(locals, before, *local, *is_aggregate, pieces.as_slice()),
        TStatement::If(e, s) => {
            with_statement(locals, more(with_expression(locals, before, e), 2), s.get())
        }
        TStatement::IfElse(e, s, t) => {
            let own = if does_something(locals, t.get()) {
                4
            } else {
                2
            };
            let tested = more(with_expression(locals, before, e), own);
            with_statement(locals, with_statement(locals, tested, s.get()), t.get())
        }
        TStatement::While(e, s) => {
            with_statement(locals, more(with_expression(locals, before, e), 5), s.get())
        }
        TStatement::DoWhile(s, e) => {
            with_statement(locals, more(with_expression(locals, before, e), 5), s.get())
        }
        TStatement::For {
            start,
            test,
            step,
            body,
        } => with_statement(
            locals,
            with_for(locals, before, start, test, step),
            body.get(),
        ),
        TStatement::Switch(e, s) => {
            with_statement(locals, with_switch(locals, before, e, s.get()), s.get())
        }
        TStatement::Case(_, s) => with_statement(locals, more(before, 1), s.get()),
        TStatement::Default(s) => with_statement(locals, more(before, 1), s.get()),
        TStatement::Labelled(_, s) => with_statement(locals, more(before, 1), s.get()),
        TStatement::Goto(_) | TStatement::Break | TStatement::Continue => more(before, 2),
        TStatement::Return => more(before, 3),
        TStatement::ReturnValue(e) => more(with_expression(locals, before, e), 2),
        TStatement::ReturnRecord(e, _) => more(with_expression(locals, before, e), 5),
    }
}

/// `before` and the operations of statements.
#[cycle(lengths)]
fn with_statements(locals: &Locals, before: u32, statements: &[TStatement]) -> u32 {
    let mut length = before;
    for s in statements {
        length = with_statement(locals, length, s);
    }
    length
}

/// How many operations a statement has.
pub(crate) fn statement_length(locals: &Locals, s: &TStatement) -> u32 {
    with_statement(locals, 0, s)
}
