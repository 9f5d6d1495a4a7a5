//! How many nodes a unit has.

ghost use Rattle.std.specs.Prelude.{◌≡◌, ◌+◌, map, sum};
ghost use Rattle.c_tree.specs.Counting.{
  most,
  expression_nodes,
  optional_nodes,
  piece_nodes,
  pieces_nodes,
  statement_nodes,
  function_nodes,
  object_nodes,
  nodes_of,
};

use crate::expression::{Form, TExpr};
use crate::statement::{Piece, TStatement};
use crate::unit::{TypedFunction, TypedObject, TypedUnit};

/// `before` and the nodes of an expression.
#[tactic(auto, unfolding(crate::specs::Counting::expression_nodes))]
#[cycle(expressions)]
fn with_expression(before: u64, e: &TExpr) -> u64
    ensures { result ≡ most (before + expression_nodes e.now) }
{
    let own = before.saturating_add(1);
    match &e.form {
        Form::Static(_) => own,
        Form::Local(_) => own,
        Form::Number(_) => own,
        Form::Deref(a) => with_expression(own, a.get()),
        Form::Dot(a, _) => with_expression(own, a.get()),
        Form::Arrow(a, _) => with_expression(own, a.get()),
        Form::Value(a, _) => with_expression(own, a.get()),
        Form::Decay(a) => with_expression(own, a.get()),
        Form::Convert(a, _) => with_expression(own, a.get()),
        Form::AddressOf(a) => with_expression(own, a.get()),
        Form::Unary(_, a) => with_expression(own, a.get()),
        Form::Step { target, .. } => with_expression(own, target.get()),
        Form::Index { base, index, .. } => with_expression(
            with_expression(own, base.get()),
            index.get(),
        ),
        Form::Binary(_, a, b) => with_expression(with_expression(own, a.get()), b.get()),
        Form::PointerAdd { left, right, .. } => with_expression(
            with_expression(own, left.get()),
            right.get(),
        ),
        Form::PointerMinus { pointer, index, .. } => with_expression(
            with_expression(own, pointer.get()),
            index.get(),
        ),
        Form::PointerDifference { left, right, .. } => {
            with_expression(with_expression(own, left.get()), right.get())
        }
        Form::Both(a, b) => with_expression(with_expression(own, a.get()), b.get()),
        Form::Either(a, b) => with_expression(with_expression(own, a.get()), b.get()),
        Form::Assign { target, value, .. } => with_expression(
            with_expression(own, target.get()),
            value.get(),
        ),
        Form::AssignRecord { target, value, .. } => with_expression(
            with_expression(own, target.get()),
            value.get(),
        ),
        Form::Compound { target, value, .. } => with_expression(
            with_expression(own, target.get()),
            value.get(),
        ),
        Form::Choose(c, a, b) => {
            with_expression(
                with_expression(with_expression(own, c.get()), a.get()),
                b.get(),
            )
        }
        Form::Comma(parts) => with_expressions(own, parts.as_slice()),
        Form::Call {
            function,
            arguments,
        } => with_expressions(with_expression(own, function.get()), arguments.as_slice()),
        Form::CallRecord {
            function,
            arguments,
            ..
        } => { with_expressions(with_expression(own, function.get()), arguments.as_slice()) }
        Form::Primitive(_, arguments) => with_expressions(own, arguments.as_slice()),
    }
}

/// `before` and the nodes of expressions.
#[cycle(expressions)]
fn with_expressions(before: u64, items: &[TExpr]) -> u64
    ensures { result ≡ most (before + sum (map expression_nodes items.now)) }
{
    let mut count = before;
    'items: for item in items {
        count = with_expression(count, item);
    }
    count
}

/// `before` and the nodes of an expression that may be left out.
fn with_optional(before: u64, e: &Option<TExpr>) -> u64
    ensures { result ≡ most (before + optional_nodes e.now) }
{
    match e {
        Some(e) => with_expression(before, e),
        None => before,
    }
}

/// `before` and the nodes of the pieces of an initialiser.
fn with_pieces(before: u64, pieces: &[Piece]) -> u64
    ensures { result ≡ most (before + pieces_nodes pieces.now) }
{
    let mut count = before;
    'pieces: for piece in pieces {
        count = with_expression(count.saturating_add(1), &piece.value);
    }
    count
}

/// `before` and the nodes of a statement.
#[tactic(auto, unfolding(crate::specs::Counting::statement_nodes))]
#[cycle(statements)]
fn with_statement(before: u64, s: &TStatement) -> u64
    ensures { result ≡ most (before + statement_nodes s.now) }
{
    let own = before.saturating_add(1);
    match s {
        TStatement::Empty => own,
        TStatement::Goto(_) => own,
        TStatement::Break => own,
        TStatement::Continue => own,
        TStatement::Return => own,
        TStatement::Expression(e) => with_expression(own, e),
        TStatement::ReturnValue(e) => with_expression(own, e),
        TStatement::ReturnRecord(e, _) => with_expression(own, e),
        TStatement::Compound(statements) => with_statements(own, statements.as_slice()),
        TStatement::Initialise { pieces, .. } => with_pieces(before, pieces.as_slice()),
        TStatement::If(e, s) => with_statement(with_expression(own, e), s.get()),
        TStatement::IfElse(e, s, t) => with_statement(
            with_statement(with_expression(own, e), s.get()),
            t.get(),
        ),
        TStatement::While(e, s) => with_statement(with_expression(own, e), s.get()),
        TStatement::DoWhile(s, e) => with_expression(with_statement(own, s.get()), e),
        TStatement::For {
            start,
            test,
            step,
            body,
        } => with_statement(
            with_optional(with_optional(with_optional(own, start), test), step),
            body.get(),
        ),
        TStatement::Switch(e, s) => with_statement(with_expression(own, e), s.get()),
        TStatement::Case(_, s) => with_statement(own.saturating_add(1), s.get()),
        TStatement::Default(s) => with_statement(own, s.get()),
        TStatement::Labelled(_, s) => with_statement(own, s.get()),
    }
}

/// `before` and the nodes of statements.
#[cycle(statements)]
fn with_statements(before: u64, statements: &[TStatement]) -> u64
    ensures { result ≡ most (before + sum (map statement_nodes statements.now)) }
{
    let mut count = before;
    'statements: for s in statements {
        count = with_statement(count, s);
    }
    count
}

/// `before` and the nodes of a function.
fn with_function(before: u64, f: &TypedFunction) -> u64
    ensures { result ≡ most (before + function_nodes f.now) }
{
    let locals = f.locals.len() as u64;
    with_statement(before.saturating_add(1).saturating_add(locals), &f.body)
}

/// `before` and the nodes of a static object. One without a name is a string literal, which has none.
fn with_object(before: u64, object: &TypedObject) -> u64
    ensures { result ≡ most (before + object_nodes object.now) }
{
    if object.name.as_slice().len() == 0 {
        before
    } else {
        with_pieces(before, object.pieces.as_slice())
    }
}

/// How many nodes a unit has: its expressions, the conversions that the text leaves out, its statements, case labels, pieces
/// of initialisers, functions, parameters and local names. A count of 2^64 - 1 stands for that many or more.
#[tactic(auto, unfolding(crate::specs::Counting::nodes_of))]
pub fn nodes(u: &TypedUnit) -> u64
    ensures { result ≡ most (nodes_of u.now) }
{
    let mut count = 0;
    'functions: for f in u.functions.as_slice() {
        count = with_function(count, f);
    }
    'objects: for object in u.objects.as_slice() {
        count = with_object(count, object);
    }
    count
}
