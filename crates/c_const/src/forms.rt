//! Constant expressions, one row for each form (C90 6.4). What isn't evaluated may divide by zero, but has to be of a constant form.

ghost use Rattle.std.specs.Prelude.{◌≡◌};
ghost use Rattle.c_tree.specs.Constants.{constant_of, known_of};
ghost use Rattle.c_const.specs.Told.{told_of};

use crate::conversion::converted;
use crate::row::{
    both, chosen, combined, either, element, live_on_set, live_on_zero, lowered, place, raised,
    turned,
};
use crate::value::Value;
use c_tree::{Form, Known, Side, TExpr};
use c_types::TypeTable;

/// The value of an expression; None where it is no constant expression.
#[tactic(auto, unfolding(c_tree::specs::Constants::constant_of))]
#[cycle(constants)]
pub(crate) fn value_of(types: &TypeTable, e: &TExpr, is_live: bool) -> Option<Value>
    ensures { told_of result ≡ (constant_of types.now e.now).value is_live }
{
    match &e.form {
        Form::Number(number) => Some(Value::Whole(*number)),
        Form::Convert(a, conversion) => {
            converted(
                types,
                e.kind,
                *conversion,
                value_of(types, a.get(), is_live),
            )
        }
        Form::AddressOf(a) => path_of(types, a.get(), is_live),
        Form::Decay(a) => path_of(types, a.get(), is_live),
        Form::Unary(op, a) => turned(*op, value_of(types, a.get(), is_live)),
        Form::Binary(op, a, b) => combined(
            *op,
            value_of(types, a.get(), is_live),
            value_of(types, b.get(), is_live),
            is_live,
        ),
        Form::Both(a, b) => {
            let left = value_of(types, a.get(), is_live);
            both(left, value_of(types, b.get(), live_on_set(is_live, left)))
        }
        Form::Either(a, b) => {
            let left = value_of(types, a.get(), is_live);
            either(left, value_of(types, b.get(), live_on_zero(is_live, left)))
        }
        Form::Choose(test, a, b) => {
            let test = value_of(types, test.get(), is_live);
            let left = value_of(types, a.get(), live_on_set(is_live, test));
            let right = value_of(types, b.get(), live_on_zero(is_live, test));
            chosen(test, left, right)
        }
        Form::PointerAdd {
            left,
            right,
            pointer: Side::Left,
            size,
        } => raised(
            value_of(types, left.get(), is_live),
            value_of(types, right.get(), is_live),
            *size,
        ),
        Form::PointerAdd {
            left,
            right,
            pointer: Side::Right,
            size,
        } => raised(
            value_of(types, right.get(), is_live),
            value_of(types, left.get(), is_live),
            *size,
        ),
        Form::PointerMinus {
            pointer,
            index,
            size,
        } => lowered(
            value_of(types, pointer.get(), is_live),
            value_of(types, index.get(), is_live),
            *size,
        ),
        Form::Static(_) => None,
        Form::Local(_) => None,
        Form::Deref(_) => None,
        Form::Index { .. } => None,
        Form::Dot(_, _) => None,
        Form::Arrow(_, _) => None,
        Form::Value(_, _) => None,
        Form::PointerDifference { .. } => None,
        Form::Comma(_) => None,
        Form::Assign { .. } => None,
        Form::AssignRecord { .. } => None,
        Form::Compound { .. } => None,
        Form::Step { .. } => None,
        Form::Call { .. } => None,
        Form::CallRecord { .. } => None,
        Form::Primitive(_, _) => None,
    }
}

/// The address that an expression designates; None where it is no constant one.
#[tactic(auto, unfolding(c_tree::specs::Constants::constant_of))]
#[cycle(constants)]
fn path_of(types: &TypeTable, e: &TExpr, is_live: bool) -> Option<Value>
    ensures { told_of result ≡ (constant_of types.now e.now).path is_live }
{
    match &e.form {
        Form::Static(symbol) => Some(Value::At(*symbol, 0)),
        Form::Deref(a) => value_of(types, a.get(), is_live),
        Form::Index {
            base,
            index,
            pointer: Side::Left,
            size,
        } => element(
            value_of(types, base.get(), is_live),
            value_of(types, index.get(), is_live),
            *size,
        ),
        Form::Index {
            base,
            index,
            pointer: Side::Right,
            size,
        } => element(
            value_of(types, index.get(), is_live),
            value_of(types, base.get(), is_live),
            *size,
        ),
        Form::Dot(a, member) => place(path_of(types, a.get(), is_live), member.offset),
        Form::Arrow(a, member) => place(value_of(types, a.get(), is_live), member.offset),
        Form::Number(_) => None,
        Form::Convert(_, _) => None,
        Form::AddressOf(_) => None,
        Form::Decay(_) => None,
        Form::Unary(_, _) => None,
        Form::Binary(_, _, _) => None,
        Form::Both(_, _) => None,
        Form::Either(_, _) => None,
        Form::Choose(_, _, _) => None,
        Form::PointerAdd { .. } => None,
        Form::PointerMinus { .. } => None,
        Form::Local(_) => None,
        Form::Value(_, _) => None,
        Form::PointerDifference { .. } => None,
        Form::Comma(_) => None,
        Form::Assign { .. } => None,
        Form::AssignRecord { .. } => None,
        Form::Compound { .. } => None,
        Form::Step { .. } => None,
        Form::Call { .. } => None,
        Form::CallRecord { .. } => None,
        Form::Primitive(_, _) => None,
    }
}

/// The value of a constant expression (C90 6.4): an integer, or an address constant; None where it is none. An integer that was
/// cast to a pointer is one, and such a pointer as an integer where it is the place of a member or element, as `offsetof` computes
/// it. It takes no memory.
pub fn constant(types: &TypeTable, e: &TExpr) -> Option<Known>
    ensures { result ≡ known_of types.now e.now }
{
    match value_of(types, e, true) {
        Some(value) => Some(value.known()),
        None => None,
    }
}
