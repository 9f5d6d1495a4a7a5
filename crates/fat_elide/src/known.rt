//! What is known of the operations so far.

use fat_code::Op;

/// Slots, as bits of four numbers.
#[derive(Clone, Copy)]
struct SlotSet {
    bits: [u64; 4],
}

impl SlotSet {
    /// No slots.
    fn new() -> SlotSet {
        SlotSet { bits: [0; 4] }
    }

    /// The bit of a slot in its number.
    fn bit(slot: u32) -> u64 {
        1u64 << (slot % 64)
    }

    /// Whether a slot is among them.
    fn has(&self, slot: u32) -> bool {
        match self.bits.get((slot / 64) as usize) {
            Some(bits) => bits & SlotSet::bit(slot) != 0,
            None => false,
        }
    }

    /// With a slot. One that a function can't have stays out.
    fn add(&mut self, slot: u32) {
        if let Some(bits) = self.bits.get_mut((slot / 64) as usize) {
            *bits |= SlotSet::bit(slot);
        }
    }

    /// Without a slot.
    fn remove(&mut self, slot: u32) {
        if let Some(bits) = self.bits.get_mut((slot / 64) as usize) {
            *bits &= !SlotSet::bit(slot);
        }
    }
}

/// The last operation that was kept; and the slots whose word was converted to a pointer right behind their `SlotGet`, with no label
/// since then, and no other word put into the slot.
#[derive(Clone, Copy)]
pub(crate) struct Known {
    last: Option<Op>,
    casts: SlotSet,
}

impl Known {
    /// Of a function without operations.
    pub fn new() -> Known {
        Known {
            last: None,
            casts: SlotSet::new(),
        }
    }

    /// Whether an operation changes nothing here: a `Narrow` right behind one of the same width and sign, or a `Cast` right behind
    /// another, or right behind the `SlotGet` of a slot that was converted before.
    pub fn is_repeated(&self, op: Op) -> bool {
        match op {
            Op::Narrow { .. } => self.last == Some(op),
            Op::Cast(_) => self.is_converted(),
            _ => false,
        }
    }

    /// Whether the last word was converted to a pointer.
    fn is_converted(&self) -> bool {
        match self.last {
            Some(Op::Cast(_)) => true,
            Some(Op::SlotGet(slot)) => self.casts.has(slot),
            _ => false,
        }
    }

    /// An operation is kept.
    pub fn keep(&mut self, op: Op) {
        match op {
            Op::Label(_) => self.casts = SlotSet::new(),
            Op::SlotSet(slot) => self.casts.remove(slot),
            Op::Cast(_) => self.convert(),
            _ => {}
        }
        self.last = Some(op);
    }

    /// The last word is converted to a pointer.
    fn convert(&mut self) {
        if let Some(Op::SlotGet(slot)) = self.last {
            self.casts.add(slot);
        }
    }
}
