//! Where the lvalues of accesses lie.

use c_tree::{Form, Member, TExpr};
use c_types::TypeId;
use elab_setting::{LocalPlace, Locals, Spot};

/// A part of a record whose root is known: it lies so many bytes further behind that. A slot has no parts.
fn part_of(root: Spot, member: Member) -> Spot {
    match root {
        Spot::Slot(_) => Spot::Memory {
            kind: member.record,
            member: member.offset,
        },
        Spot::Memory {
            kind,
            member: offset,
        } => Spot::Memory {
            kind,
            member: offset.saturating_add(member.offset),
        },
    }
}

/// A local object.
fn local_spot(locals: &Locals, local: u32, kind: TypeId) -> Spot {
    match locals.place(local) {
        Some(LocalPlace::Slot(slot)) => Spot::Slot(slot),
        Some(LocalPlace::Entry(_)) | None => Spot::Memory { kind, member: 0 },
    }
}

/// Where an lvalue lies: its root is what `.` and `->` lead from, by the sum of their offsets. Every other lvalue is its own
/// root.
pub(crate) fn spot_of(locals: &Locals, e: &TExpr) -> Spot {
    match &e.form {
        Form::Local(local) => local_spot(locals, *local, e.kind),
        Form::Dot(record, member) => part_of(spot_of(locals, record.get()), *member),
        Form::Arrow(_, member) => Spot::Memory {
            kind: member.record,
            member: member.offset,
        },
        _ => Spot::Memory {
            kind: e.kind,
            member: 0,
        },
    }
}

/// How many words an lvalue gives before its access: its address, or nothing.
pub(crate) fn words_of(spot: Spot) -> u32 {
    match spot {
        Spot::Slot(_) => 0,
        Spot::Memory { .. } => 1,
    }
}
