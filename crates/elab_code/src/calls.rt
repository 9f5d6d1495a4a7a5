//! Operations of rows of calls, of entry and of return (C90 6.3.2.2, 6.6.6.4).

use crate::emitter::Emitter;
use c_ops::Primitive;
use c_types::TypeId;
use elab_setting::{ElaborateNo, LocalPlace};
use fat_code::Op;
use fsc_base::Width;

impl Emitter<'_> {
    /// The address of the block that a struct call's value goes to, below so many arguments, at most 3.
    pub fn receives(&mut self, number: u32, below: usize) {
        let entry = self.wanted(self.locals().call(number));
        match below {
            0 => self.locates(entry),
            1 => self.locates_below(entry),
            2 => self.locates_below_two(entry),
            _ => self.locates_below_three(entry),
        }
    }

    /// The address of an entry block, below the last word.
    pub(crate) fn locates_below(&mut self, entry: u32) {
        self.locates(entry);
        self.put(Op::Swap);
    }

    /// The same below the last two; the upper one waits in a spare slot.
    fn locates_below_two(&mut self, entry: u32) {
        let waiting = self.spare();
        self.sets(waiting);
        self.locates_below(entry);
        self.put(Op::SlotGet(waiting));
    }

    /// The same below the last three.
    fn locates_below_three(&mut self, entry: u32) {
        let waiting = self.second_spare();
        self.sets(waiting);
        self.locates_below_two(entry);
        self.put(Op::SlotGet(waiting));
    }

    /// Calls the word below so many arguments.
    pub fn calls(&mut self, arguments: u32) {
        self.put(Op::Call(arguments));
    }

    /// A primitive.
    pub fn performs(&mut self, primitive: Primitive) {
        self.put(Op::Primitive(primitive));
    }

    /// The address of an entry block; a slot gives nothing.
    pub(crate) fn locates_place(&mut self, place: LocalPlace) {
        match place {
            LocalPlace::Slot(_) => {}
            LocalPlace::Entry(entry) => self.locates(entry),
        }
    }

    /// Converts the word of a parameter of 1 or 2 bytes in its slot.
    pub fn narrows_slot(&mut self, slot: u32, width: Width, is_signed: bool) {
        self.put(Op::SlotGet(slot));
        self.narrows(width, is_signed);
        self.sets(slot);
    }

    /// Fills the entry block of a scalar parameter from its slot.
    pub fn fills(&mut self, slot: u32, entry: u32, kind: TypeId, width: Width) {
        self.locates(entry);
        self.put(Op::SlotGet(slot));
        self.writes(kind, 0, width);
        self.drops();
    }

    /// The same of a struct or union: the slot has the address of the argument.
    pub fn fills_record(&mut self, slot: u32, entry: u32, size: u32) {
        self.locates(entry);
        self.put(Op::SlotGet(slot));
        self.copies(size);
        self.drops();
    }

    /// Copies a struct or union to where the caller wants it, by the address in the first slot.
    pub fn copies_out(&mut self, size: u32) {
        self.put(Op::SlotGet(0));
        self.put(Op::Swap);
        self.copies(size);
    }

    /// Returns the last word.
    pub fn returns(&mut self) {
        self.put(Op::Return);
        self.label(0);
    }

    /// Returns 0 at the end of the function.
    pub fn falls_off(&mut self) {
        self.gives(0);
        self.put(Op::Return);
    }

    /// What is no operation of a sound function.
    pub fn misfits(&mut self) {
        self.refuse(ElaborateNo::Misfit);
    }
}
