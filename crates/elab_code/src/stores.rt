//! Operations of rows that store to an lvalue (C90 6.3.16, 6.3.2.4, 6.3.3.1).

use crate::emitter::Emitter;
use c_tree::{Access, CompoundOp};
use c_types::TypeId;
use elab_setting::Spot;
use fat_code::Op;
use fsc_base::Width;

impl Emitter<'_> {
    /// Writes the word above an address.
    pub(crate) fn writes(&mut self, kind: TypeId, member: u32, width: Width) {
        let shape = self.shape_behind(kind, member);
        self.put(Op::Store {
            width,
            shape,
            member,
        });
    }

    /// The first step of a store to a bit-field: its value goes into the spare slot, and its unit is read above its address.
    pub(crate) fn reads_unit(&mut self, kind: TypeId, member: u32) {
        self.sets(self.spare());
        self.put(Op::Duplicate);
        self.loads_unit(kind, member);
    }

    /// The second step: the unit is written with the value's bits.
    pub(crate) fn writes_unit(&mut self, kind: TypeId, member: u32, first: u32, count: u32) {
        self.replaces_bits(first, count);
        self.writes(kind, member, Width::Four);
        self.drops();
    }

    /// Stores the word above an address, in whose place it stands then.
    fn stores_at(&mut self, kind: TypeId, member: u32, access: Access) {
        match access {
            Access::Scalar { width, .. } => self.writes(kind, member, width),
            Access::Bits {
                first,
                count,
                is_signed,
            } => {
                self.reads_unit(kind, member);
                self.writes_unit(kind, member, first, count);
                self.put(Op::SlotGet(self.spare()));
                self.extends(0, count, is_signed);
            }
        }
    }

    /// Stores the last word, which is the value of the assignment.
    pub fn stores(&mut self, spot: Spot, access: Access) {
        match spot {
            Spot::Slot(slot) => self.put(Op::SlotSet(slot)),
            Spot::Memory { kind, member } => self.stores_at(kind, member, access),
        }
    }

    /// Converts a result to the type of its target; the store to a bit-field does so itself.
    fn fits(&mut self, access: Access) {
        match access {
            Access::Scalar { width, is_signed } => self.narrows(width, is_signed),
            Access::Bits { .. } => {}
        }
    }

    /// The rest of a compound assignment, behind its operand.
    pub fn combines(&mut self, spot: Spot, op: CompoundOp, access: Access) {
        self.combined(op);
        self.fits(access);
        self.stores(spot, access);
    }

    /// The rest of `++` and `--`, behind the value of its operand.
    pub fn increments(&mut self, spot: Spot, op: CompoundOp, is_prefix: bool, access: Access) {
        if is_prefix {
            self.increments_before(spot, op, access);
        } else {
            self.increments_after(spot, op, access);
        }
    }

    /// The rest of `++l`.
    fn increments_before(&mut self, spot: Spot, op: CompoundOp, access: Access) {
        self.combined_with_one(op);
        self.fits(access);
        self.stores(spot, access);
    }

    /// The rest of `l++`.
    fn increments_after(&mut self, spot: Spot, op: CompoundOp, access: Access) {
        match spot {
            Spot::Slot(slot) => {
                self.put(Op::Duplicate);
                self.combined_with_one(op);
                self.fits(access);
                self.sets(slot);
            }
            Spot::Memory { kind, member } => self.increments_at(kind, member, op, access),
        }
    }

    /// The same in memory: the old value waits in the second spare slot.
    fn increments_at(&mut self, kind: TypeId, member: u32, op: CompoundOp, access: Access) {
        let waiting = self.second_spare();
        self.put(Op::SlotSet(waiting));
        self.combined_with_one(op);
        match access {
            Access::Scalar { width, is_signed } => {
                self.narrows(width, is_signed);
                self.writes(kind, member, width);
                self.drops();
            }
            Access::Bits { first, count, .. } => {
                self.reads_unit(kind, member);
                self.writes_unit(kind, member, first, count);
            }
        }
        self.put(Op::SlotGet(waiting));
    }

    /// Copies a struct or union of so many bytes; its target's address stays.
    pub fn copies(&mut self, size: u32) {
        self.put(Op::Copy(size));
    }

    /// Puts the last word into a slot and drops it.
    pub fn sets(&mut self, slot: u32) {
        self.put(Op::SlotSet(slot));
        self.drops();
    }
}
