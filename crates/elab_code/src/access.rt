//! Operations of rows that read an lvalue (C90 6.2.2.1).

use crate::emitter::Emitter;
use c_tree::{Access, Symbol};
use c_types::TypeId;
use elab_setting::Spot;
use fat_code::Op;
use fsc_base::Width;

impl Emitter<'_> {
    /// The address of what a name with linkage stands for, or of an object of the unit.
    pub fn names(&mut self, symbol: Symbol) {
        match symbol {
            Symbol::Named(symbol) => self.put(Op::Symbol { symbol, offset: 0 }),
            Symbol::Object(object) => self.put(Op::Object { object, offset: 0 }),
        }
    }

    /// The address of an entry block.
    pub fn locates(&mut self, entry: u32) {
        self.put(Op::Entry(entry));
    }

    /// The address of a local object; a slot gives nothing.
    pub fn locates_local(&mut self, local: u32) {
        match self.locals().place(local) {
            Some(place) => self.locates_place(place),
            None => self.misfits(),
        }
    }

    /// Reads the unit of a bit-field, or a word of 4 bytes.
    pub(crate) fn loads_unit(&mut self, kind: TypeId, member: u32) {
        let shape = self.shape_behind(kind, member);
        self.put(Op::Load {
            width: Width::Four,
            is_signed: false,
            shape,
            member,
        });
    }

    /// Reads what lies at an address.
    pub(crate) fn loads(&mut self, kind: TypeId, member: u32, access: Access) {
        match access {
            Access::Scalar { width, is_signed } => {
                let shape = self.shape_behind(kind, member);
                self.put(Op::Load {
                    width,
                    is_signed,
                    shape,
                    member,
                });
            }
            Access::Bits {
                first,
                count,
                is_signed,
            } => {
                self.loads_unit(kind, member);
                self.extends(first, count, is_signed);
            }
        }
    }

    /// The value of an lvalue, in place of its address where it has one.
    pub fn reads(&mut self, spot: Spot, access: Access) {
        match spot {
            Spot::Slot(slot) => self.put(Op::SlotGet(slot)),
            Spot::Memory { kind, member } => self.loads(kind, member, access),
        }
    }

    /// The value of an lvalue, above its address where it has one.
    pub fn peeks(&mut self, spot: Spot, access: Access) {
        match spot {
            Spot::Slot(slot) => self.put(Op::SlotGet(slot)),
            Spot::Memory { kind, member } => {
                self.put(Op::Duplicate);
                self.loads(kind, member, access);
            }
        }
    }
}
