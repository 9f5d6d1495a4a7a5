//! Operations of one function, put one behind the other.

use c_types::TypeId;
use elab_setting::{ElaborateNo, Locals, Places, count_of};
use fat_code::Op;

/// What the operations of a function depend on beside its rows: where its locals lie, the shape of each type of the unit, and
/// where its labels and cases stand.
#[derive(Clone, Copy)]
pub struct Setting<'a> {
    pub locals: &'a Locals,
    /// By the number of the type: the index of its shape among the unit's.
    pub shapes: &'a [u32],
    pub places: &'a Places,
}

/// Where `break` and `continue` go; None where they belong to nothing.
#[derive(Clone, Copy, Debug, PartialEq, Eq)]
pub struct Around {
    pub behind: Option<u32>,
    pub turn: Option<u32>,
}

/// The operations of a function so far. It keeps the first refusal and gives it at the end, so that what is put behind it does
/// no harm. Heights are numbers of words on the stack, places are indexes of operations.
#[derive(Drop)]
pub struct Emitter<'a> {
    setting: Setting<'a>,
    ops: Vec<Op>,
    refusal: Option<ElaborateNo>,
    /// How many switches began so far.
    switches: usize,
}

impl<'a> Emitter<'a> {
    /// Behind these operations.
    pub fn new(setting: Setting<'a>, ops: Vec<Op>) -> Emitter<'a> {
        Emitter {
            setting,
            ops,
            refusal: None,
            switches: 0,
        }
    }

    /// All operations, or the first refusal.
    pub fn finish(self) -> Result<Vec<Op>, ElaborateNo> {
        let Emitter { ops, refusal, .. } = self;
        match refusal {
            None => Ok(ops),
            Some(refusal) => Err(refusal),
        }
    }

    /// Where the function's locals lie.
    pub fn locals(&self) -> &'a Locals {
        self.setting.locals
    }

    /// Where its labels and cases stand.
    pub(crate) fn places(&self) -> &'a Places {
        self.setting.places
    }

    /// The place of the next operation.
    pub fn place(&self) -> u32 {
        count_of(self.ops.len())
    }

    /// Keeps a refusal, unless there is one.
    pub fn refuse(&mut self, refusal: ElaborateNo) {
        if self.refusal.is_none() {
            self.refusal = Some(refusal);
        }
    }

    /// Puts an operation.
    pub(crate) fn put(&mut self, op: Op) {
        if self.ops.push(op).is_err() {
            self.refuse(ElaborateNo::NoMemory);
        }
    }

    /// What is there, or 0 and a refusal.
    pub(crate) fn wanted(&mut self, number: Option<u32>) -> u32 {
        match number {
            Some(number) => number,
            None => {
                self.refuse(ElaborateNo::Misfit);
                0
            }
        }
    }

    /// The index of a type's shape.
    pub(crate) fn shape(&mut self, kind: TypeId) -> u32 {
        self.wanted(self.setting.shapes.get(kind as usize).copied())
    }

    /// The index of the shape of an access's root, where it lies so many bytes behind that; no type has more than 2^27.
    pub(crate) fn shape_behind(&mut self, kind: TypeId, member: u32) -> u32 {
        if member > 0x0800_0000 {
            self.refuse(ElaborateNo::Misfit);
        }
        self.shape(kind)
    }

    /// The first spare slot.
    pub(crate) fn spare(&self) -> u32 {
        self.setting.locals.spare()
    }

    /// The second spare slot.
    pub(crate) fn second_spare(&self) -> u32 {
        self.spare().saturating_add(1)
    }

    /// The number of the next switch, in order of text.
    pub(crate) fn next_switch(&mut self) -> usize {
        let number = self.switches;
        self.switches = number.saturating_add(1);
        number
    }
}
