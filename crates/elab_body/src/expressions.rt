//! The operations of expressions (C90 6.3). Each gives one word, but an lvalue that is a slot, which gives nothing. Heights are
//! numbers of words below.

use crate::lengths::expression_length;
use crate::spots::{spot_of, words_of};
use c_tree::{Access, CompoundOp, Form, TExpr};
use elab_code::Emitter;
use elab_setting::count_of;

/// So many words more.
fn over(height: u32, words: u32) -> u32 {
    height.saturating_add(words)
}

/// Those of an expression over so many words.
#[cycle(expressions)]
pub(crate) fn expression(out: &mut Emitter, e: &TExpr, height: u32) {
    match &e.form {
        Form::Static(symbol) => out.names(*symbol),
        Form::Local(local) => out.locates_local(*local),
        Form::Number(number) => out.gives(*number),
        Form::Deref(a) => expression(out, a.get(), height),
        Form::Decay(a) => expression(out, a.get(), height),
        Form::AddressOf(a) => expression(out, a.get(), height),
        Form::Dot(a, member) => {
            expression(out, a.get(), height);
            out.moves(member.offset);
        }
        Form::Arrow(a, member) => {
            expression(out, a.get(), height);
            out.moves(member.offset);
        }
        Form::Value(a, access) => {
            expression(out, a.get(), height);
            reads(out, a.get(), *access);
        }
        Form::Convert(a, conversion) => {
            expression(out, a.get(), height);
            out.converts(*conversion);
        }
        Form::Unary(op, a) => {
            expression(out, a.get(), height);
            out.turns(*op);
        }
        Form::Index {
            base,
            index,
            pointer,
            size,
        } => {
            expression(out, base.get(), height);
            expression(out, index.get(), over(height, 1));
            out.indexes(*pointer, *size);
        }
        Form::PointerAdd {
            left,
            right,
            pointer,
            size,
        } => {
            expression(out, left.get(), height);
            expression(out, right.get(), over(height, 1));
            out.indexes(*pointer, *size);
        }
        Form::Binary(op, a, b) => {
            expression(out, a.get(), height);
            expression(out, b.get(), over(height, 1));
            out.operates(*op);
        }
        Form::PointerMinus {
            pointer,
            index,
            size,
        } => {
            expression(out, pointer.get(), height);
            expression(out, index.get(), over(height, 1));
            out.lowers(*size);
        }
        Form::PointerDifference { left, right, size } => {
            expression(out, left.get(), height);
            expression(out, right.get(), over(height, 1));
            out.spans(*size);
        }
        Form::Both(a, b) => {
            expression(out, a.get(), height);
            let fails = begins_both(out, b.get());
            expression(out, b.get(), height);
            out.ends_both(fails, height);
        }
        Form::Either(a, b) => {
            expression(out, a.get(), height);
            let holds = begins_either(out, b.get());
            expression(out, b.get(), height);
            out.ends_either(holds, height);
        }
        Form::Choose(c, a, b) => {
            expression(out, c.get(), height);
            let other = begins_choice(out, a.get());
            expression(out, a.get(), height);
            turns_choice(out, other, b.get(), height);
            expression(out, b.get(), height);
            out.label(over(height, 1));
        }
        Form::Comma(parts) => listed(out, parts.as_slice(), height),
        Form::Assign {
            target,
            value,
            access,
        } => {
            expression(out, target.get(), height);
            let above = above_target(out, target.get(), height);
            expression(out, value.get(), above);
            stores(out, target.get(), *access);
        }
        Form::AssignRecord {
            target,
            value,
            size,
        } => {
            expression(out, target.get(), height);
            expression(out, value.get(), over(height, 1));
            out.copies(*size);
        }
        Form::Compound {
            target,
            op,
            value,
            access,
        } => {
            expression(out, target.get(), height);
            let above = peeks(out, target.get(), *access, height);
            expression(out, value.get(), above);
            combines(out, target.get(), *op, *access);
        }
        Form::Step {
            target,
            op,
            is_prefix,
            access,
        } => {
            expression(out, target.get(), height);
            increments(out, target.get(), *op, *is_prefix, *access);
        }
        Form::Call {
            function,
            arguments,
        } => {
            expression(out, function.get(), height);
            passed(out, arguments.as_slice(), over(height, 1));
            out.calls(count_of(arguments.len()));
        }
        Form::CallRecord {
            function,
            arguments,
            number,
        } => {
            expression(out, function.get(), height);
            passed_behind(out, arguments.as_slice(), *number, over(height, 1));
            out.calls(count_of(arguments.len()).saturating_add(1));
        }
        Form::Primitive(primitive, arguments) => {
            passed(out, arguments.as_slice(), height);
            out.performs(*primitive);
        }
    }
}

/// Those of the parts of a comma expression: the value of each but the last is dropped (C90 6.3.17).
#[cycle(expressions)]
fn listed(out: &mut Emitter, parts: &[TExpr], height: u32) {
    let mut is_first = true;
    for part in parts {
        if !is_first {
            out.drops();
        }
        is_first = false;
        expression(out, part, height);
    }
}

/// Those of arguments.
#[cycle(expressions)]
fn passed(out: &mut Emitter, arguments: &[TExpr], height: u32) {
    let mut above = height;
    for argument in arguments {
        expression(out, argument, above);
        above = over(above, 1);
    }
}

/// Those of the arguments of a struct call. The address of its block is put below them behind the third, or behind the last
/// where there are fewer.
#[cycle(expressions)]
fn passed_behind(out: &mut Emitter, arguments: &[TExpr], number: u32, height: u32) {
    let mut count = 0usize;
    let mut above = height;
    for argument in arguments {
        if count == 3 {
            out.receives(number, count);
            above = over(above, 1);
        }
        expression(out, argument, above);
        above = over(above, 1);
        count = count.saturating_add(1);
    }
    if count <= 3 {
        out.receives(number, count);
    }
}

/// The value of an lvalue whose address, if it has one, was given.
fn reads(out: &mut Emitter, target: &TExpr, access: Access) {
    let spot = spot_of(out.locals(), target);
    out.reads(spot, access);
}

/// The same where a store follows. Gives the height behind.
fn peeks(out: &mut Emitter, target: &TExpr, access: Access, height: u32) -> u32 {
    let spot = spot_of(out.locals(), target);
    out.peeks(spot, access);
    over(height, words_of(spot).saturating_add(1))
}

/// The height behind an assignment's target.
fn above_target(out: &Emitter, target: &TExpr, height: u32) -> u32 {
    over(height, words_of(spot_of(out.locals(), target)))
}

/// An assignment behind its value.
fn stores(out: &mut Emitter, target: &TExpr, access: Access) {
    let spot = spot_of(out.locals(), target);
    out.stores(spot, access);
}

/// A compound assignment behind its operand.
fn combines(out: &mut Emitter, target: &TExpr, op: CompoundOp, access: Access) {
    let spot = spot_of(out.locals(), target);
    out.combines(spot, op, access);
}

/// `++` and `--` behind the address of their operand.
fn increments(out: &mut Emitter, target: &TExpr, op: CompoundOp, is_prefix: bool, access: Access) {
    let spot = spot_of(out.locals(), target);
    out.peeks(spot, access);
    out.increments(spot, op, is_prefix, access);
}

/// `&&` behind its left operand. Gives where it goes when one is 0.
fn begins_both(out: &mut Emitter, right: &TExpr) -> u32 {
    let length = expression_length(out.locals(), right);
    out.begins_both(length)
}

/// `||` behind its left operand. Gives where it goes when one is not 0.
fn begins_either(out: &mut Emitter, right: &TExpr) -> u32 {
    let length = expression_length(out.locals(), right);
    out.begins_either(length)
}

/// `?:` behind its condition. Gives where the third operand stands.
fn begins_choice(out: &mut Emitter, first: &TExpr) -> u32 {
    let length = expression_length(out.locals(), first);
    out.begins_choice(length)
}

/// The same behind its second operand.
fn turns_choice(out: &mut Emitter, other: u32, second: &TExpr, height: u32) {
    let length = expression_length(out.locals(), second);
    out.turns_choice(other, length, height);
}
