//! Operations of rows of initialisers (C90 6.5.7).

use crate::emitter::Emitter;
use c_tree::Access;
use c_types::TypeId;
use fat_code::Op;

impl Emitter<'_> {
    /// Clears an aggregate's bytes and bases.
    pub fn clears(&mut self, entry: u32, size: u32) {
        self.locates(entry);
        self.put(Op::Clear(size));
    }

    /// The address of a member of an entry block, below the last word.
    fn locates_member(&mut self, entry: u32, offset: u32) {
        self.locates(entry);
        self.moves(offset);
        self.put(Op::Swap);
    }

    /// Stores the last word to a scalar member, or to a scalar in memory.
    pub fn initialises(&mut self, entry: u32, kind: TypeId, offset: u32, access: Access) {
        self.locates_member(entry, offset);
        match access {
            Access::Scalar { width, .. } => {
                self.writes(kind, offset, width);
                self.drops();
            }
            Access::Bits { first, count, .. } => {
                self.reads_unit(kind, offset);
                self.writes_unit(kind, offset, first, count);
            }
        }
    }

    /// Copies to a member that is a struct or union.
    pub fn copies_in(&mut self, entry: u32, offset: u32, size: u32) {
        self.locates_member(entry, offset);
        self.copies(size);
        self.drops();
    }
}
