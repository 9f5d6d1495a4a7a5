//! Arrays, structs and unions while their parts are filled one after the other.

use crate::sort::{Elements, Sort, sort_of};
use c_types::{Member, TypeId, TypeTable};

/// A part of an object.
#[derive(Clone, Copy, Debug, PartialEq, Eq)]
pub(crate) struct Slot {
    pub kind: TypeId,
    /// In bytes, from the object's first; a bit-field's is that of its unit.
    pub offset: u64,
    /// The first bit of a bit-field.
    pub first: u32,
    /// How many bits a bit-field has; 0 of what is none.
    pub count: u32,
}

impl Slot {
    /// What is no bit-field.
    pub fn at(kind: TypeId, offset: u64) -> Slot {
        Slot {
            kind,
            offset,
            first: 0,
            count: 0,
        }
    }
}

/// An array, struct or union whose parts are being filled.
#[derive(Clone, Copy, Debug, PartialEq, Eq)]
pub(crate) struct Frame {
    pub kind: TypeId,
    /// In bytes, from the object's first.
    pub base: u64,
    /// The index of the element or member that comes next.
    pub next: usize,
    /// Its items stand in braces of their own.
    pub is_braced: bool,
}

impl Frame {
    /// None of its parts is filled yet.
    pub fn new(slot: Slot, is_braced: bool) -> Frame {
        Frame {
            kind: slot.kind,
            base: slot.offset,
            next: 0,
            is_braced,
        }
    }

    /// The part that comes next, and the index behind it. None where all are filled.
    pub fn next_slot(self, types: &TypeTable) -> Option<(Slot, usize)> {
        match sort_of(types, self.kind) {
            Sort::Array(elements) => self.element(elements),
            Sort::Struct(_) => self.member(types.members(self.kind)),
            Sort::Union(_) => self.first_member(types.members(self.kind)),
            Sort::Scalar(_) | Sort::Neither => None,
        }
    }

    /// The element that comes next.
    fn element(self, elements: Elements) -> Option<(Slot, usize)> {
        let next = self.next as u64;
        if elements.count != 0 && next >= u64::from(elements.count) {
            return None;
        }
        let offset = next
            .saturating_mul(u64::from(elements.size))
            .saturating_add(self.base);
        Some((Slot::at(elements.of, offset), self.next.saturating_add(1)))
    }

    /// The member that comes next. Those without a name are not filled (C90 6.5.7).
    fn member(self, members: &[Member]) -> Option<(Slot, usize)> {
        for index in self.next..members.len() {
            if let Some(member) = members.get(index) {
                if member.name.as_slice().len() != 0 {
                    return Some((self.slot_of(member), index.saturating_add(1)));
                }
            }
        }
        None
    }

    /// Of a union the first member with a name is filled, and no other (C90 6.5.7).
    fn first_member(self, members: &[Member]) -> Option<(Slot, usize)> {
        if self.next == 0 {
            self.member(members)
        } else {
            None
        }
    }

    /// Where a member lies.
    fn slot_of(self, member: &Member) -> Slot {
        Slot {
            kind: member.kind,
            offset: self.base.saturating_add(u64::from(member.offset)),
            first: member.first,
            count: member.count,
        }
    }
}
