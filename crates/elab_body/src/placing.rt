//! Where the labels and cases of a function stand.

use crate::lengths::with_expression;
use crate::statement_lengths::{does_something, with_cases, with_optional, with_statement};
use c_tree::TStatement;
use elab_setting::{Locals, Places, head_length};

/// So many operations behind a place.
fn behind(place: u32, count: u32) -> u32 {
    place.saturating_add(count)
}

/// Puts the labels and cases of a statement whose operations begin at a place; the cases are those of this switch. Gives the
/// place behind it.
#[cycle(placing)]
pub(crate) fn place_statement(
    places: &mut Places,
    locals: &Locals,
    switch: Option<usize>,
    at: u32,
    s: &TStatement,
) -> u32 {
    match s {
        TStatement::Compound(statements) => {
            place_statements(places, locals, switch, at, statements.as_slice())
        }
        TStatement::If(e, s) => {
            let body = behind(with_expression(locals, at, e), 1);
            behind(place_statement(places, locals, switch, body, s.get()), 1)
        }
        TStatement::IfElse(e, s, t) => {
            let body = behind(with_expression(locals, at, e), 1);
            let end = place_statement(places, locals, switch, body, s.get());
            if does_something(locals, t.get()) {
                behind(
                    place_statement(places, locals, switch, behind(end, 2), t.get()),
                    1,
                )
            } else {
                behind(end, 1)
            }
        }
        TStatement::While(e, s) => {
            let body = behind(with_expression(locals, at, e), 2);
            behind(place_statement(places, locals, switch, body, s.get()), 3)
        }
        TStatement::DoWhile(s, e) => {
            let end = place_statement(places, locals, switch, behind(at, 1), s.get());
            behind(with_expression(locals, end, e), 4)
        }
        TStatement::For {
            start,
            test,
            step,
            body,
        } => {
            let turn = behind(with_optional(locals, at, start, 1), 1);
            let tested = with_optional(locals, turn, test, 1);
            let end = place_statement(places, locals, switch, tested, body.get());
            behind(with_optional(locals, end, step, 1), 3)
        }
        TStatement::Switch(e, s) => {
            let head = head_length(with_cases(0, s.get()));
            let body = behind(with_expression(locals, at, e), head);
            let own = places.begin_switch();
            behind(place_statement(places, locals, Some(own), body, s.get()), 1)
        }
        TStatement::Case(value, s) => {
            places.put_case(switch, *value, at);
            place_statement(places, locals, switch, behind(at, 1), s.get())
        }
        TStatement::Default(s) => {
            places.put_default(switch, at);
            place_statement(places, locals, switch, behind(at, 1), s.get())
        }
        TStatement::Labelled(label, s) => {
            places.put_label(*label, at);
            place_statement(places, locals, switch, behind(at, 1), s.get())
        }
        TStatement::Empty
        | TStatement::Expression(_)
        | TStatement::Initialise { .. }
        | TStatement::Goto(_)
        | TStatement::Break
        | TStatement::Continue
        | TStatement::Return
        | TStatement::ReturnValue(_)
        | TStatement::ReturnRecord(_, _) => with_statement(locals, at, s),
    }
}

/// The same of statements.
#[cycle(placing)]
fn place_statements(
    places: &mut Places,
    locals: &Locals,
    switch: Option<usize>,
    at: u32,
    statements: &[TStatement],
) -> u32 {
    let mut place = at;
    for s in statements {
        place = place_statement(places, locals, switch, place, s);
    }
    place
}
