//! How many operations expressions have.

use crate::spots::spot_of;
use c_tree::{Access, CompoundOp, Form, TExpr};
use elab_setting::{
    Locals, combined_length, converted_length, count_of, increment_length, indexed_length,
    lowered_length, moved_length, operated_length, peek_length, read_length, received_length,
    store_length, turned_length,
};

/// `before` and so many more.
fn more(before: u32, count: u32) -> u32 {
    before.saturating_add(count)
}

/// `before` and those of a local's address.
fn with_local(locals: &Locals, before: u32, local: u32) -> u32 {
    if locals.is_slot(local) {
        before
    } else {
        more(before, 1)
    }
}

/// `before` and those of a read.
fn with_read(locals: &Locals, before: u32, target: &TExpr, access: Access) -> u32 {
    more(before, read_length(spot_of(locals, target), access))
}

/// `before` and those of a store.
fn with_store(locals: &Locals, before: u32, target: &TExpr, access: Access) -> u32 {
    more(before, store_length(spot_of(locals, target), access))
}

/// `before` and those of a compound assignment beside its operands.
fn with_compound(
    locals: &Locals,
    before: u32,
    target: &TExpr,
    op: CompoundOp,
    access: Access,
) -> u32 {
    let spot = spot_of(locals, target);
    let peeked = more(before, peek_length(spot, access));
    more(peeked, combined_length(spot, op, access))
}

/// `before` and those of `++` or `--` beside its operand.
fn with_step(
    locals: &Locals,
    before: u32,
    target: &TExpr,
    op: CompoundOp,
    is_prefix: bool,
    access: Access,
) -> u32 {
    let spot = spot_of(locals, target);
    let peeked = more(before, peek_length(spot, access));
    more(peeked, increment_length(spot, op, is_prefix, access))
}

/// `before` and those of an expression.
#[cycle(lengths)]
pub(crate) fn with_expression(locals: &Locals, before: u32, e: &TExpr) -> u32 {
    match &e.form {
        Form::Static(_) => more(before, 1),
        Form::Number(_) => more(before, 1),
        Form::Local(local) => with_local(locals, before, *local),
        Form::Deref(a) => with_expression(locals, before, a.get()),
        Form::Decay(a) => with_expression(locals, before, a.get()),
        Form::AddressOf(a) => with_expression(locals, before, a.get()),
        Form::Dot(a, member) => with_expression(
            locals,
            more(before, moved_length(member.offset)),
            a.get(),
        ),
        Form::Arrow(a, member) => with_expression(
            locals,
            more(before, moved_length(member.offset)),
            a.get(),
        ),
        Form::Value(a, access) => with_expression(
            locals,
            with_read(locals, before, a.get(), *access),
            a.get(),
        ),
        Form::Convert(a, conversion) => with_expression(
            locals,
            more(before, converted_length(*conversion)),
            a.get(),
        ),
        Form::Unary(op, a) => with_expression(locals, more(before, turned_length(*op)), a.get()),
        Form::Index {
            base,
            index,
            pointer,
            size,
        } => with_expression(
            locals,
            with_expression(
                locals,
                more(before, indexed_length(*pointer, *size)),
                base.get(),
            ),
            index.get(),
        ),
        Form::PointerAdd {
            left,
            right,
            pointer,
            size,
        } => with_expression(
            locals,
            with_expression(
                locals,
                more(before, indexed_length(*pointer, *size)),
                left.get(),
            ),
            right.get(),
        ),
        Form::Binary(op, a, b) => with_expression(
            locals,
            with_expression(locals, more(before, operated_length(*op)), a.get()),
            b.get(),
        ),
        Form::PointerMinus {
            pointer,
            index,
            size,
        } => with_expression(
            locals,
            with_expression(locals, more(before, lowered_length(*size)), pointer.get()),
            index.get(),
        ),
        Form::PointerDifference { left, right, .. } => {
            with_expression(
                locals,
                with_expression(locals, more(before, 3), left.get()),
                right.get(),
            )
        }
        Form::Both(a, b) => with_expression(
            locals,
            with_expression(locals, more(before, 7), a.get()),
            b.get(),
        ),
        Form::Either(a, b) => with_expression(
            locals,
            with_expression(locals, more(before, 9), a.get()),
            b.get(),
        ),
        Form::Choose(c, a, b) => with_expression(
            locals,
            with_expression(
                locals,
                with_expression(locals, more(before, 4), c.get()),
                a.get(),
            ),
            b.get(),
        ),
        Form::Comma(parts) => with_expressions(
            locals,
            more(before, count_of(parts.len()).saturating_sub(1)),
            parts.as_slice(),
        ),
        Form::Assign {
            target,
            value,
            access,
        } => with_expression(
            locals,
            with_expression(
                locals,
                with_store(locals, before, target.get(), *access),
                target.get(),
            ),
            value.get(),
        ),
        Form::AssignRecord { target, value, .. } => {
            with_expression(
                locals,
                with_expression(locals, more(before, 1), target.get()),
                value.get(),
            )
        }
        Form::Compound {
            target,
            op,
            value,
            access,
        } => with_expression(
            locals,
            with_expression(
                locals,
                with_compound(locals, before, target.get(), *op, *access),
                target.get(),
            ),
            value.get(),
        ),
        Form::Step {
            target,
            op,
            is_prefix,
            access,
        } => with_expression(
            locals,
            with_step(locals, before, target.get(), *op, *is_prefix, *access),
            target.get(),
        ),
        Form::Call {
            function,
            arguments,
        } => with_expressions(
            locals,
            with_expression(locals, more(before, 1), function.get()),
            arguments.as_slice(),
        ),
        Form::CallRecord {
            function,
            arguments,
            ..
        } => with_expressions(
            locals,
            with_expression(
                locals,
                more(before, received_length(arguments.len()).saturating_add(1)),
                function.get(),
            ),
            arguments.as_slice(),
        ),
        Form::Primitive(_, arguments) => {
            with_expressions(locals, more(before, 1), arguments.as_slice())
        }
    }
}

/// `before` and those of expressions.
#[cycle(lengths)]
fn with_expressions(locals: &Locals, before: u32, items: &[TExpr]) -> u32 {
    let mut length = before;
    for item in items {
        length = with_expression(locals, length, item);
    }
    length
}

/// How many operations an expression has.
pub(crate) fn expression_length(locals: &Locals, e: &TExpr) -> u32 {
    with_expression(locals, 0, e)
}
