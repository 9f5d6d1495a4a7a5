//! How many words are pending.

use fat_code::Op;

/// How many words an operation takes, where it can be told; else None. At a label none are taken.
fn taken(op: Op) -> Option<u32> {
    match op {
        Op::Label(_)
        | Op::Jump(_)
        | Op::Number(_)
        | Op::Symbol { .. }
        | Op::Object { .. }
        | Op::SlotGet(_)
        | Op::Entry(_) => Some(0),
        Op::JumpZero(_)
        | Op::JumpCase { .. }
        | Op::SlotSet(_)
        | Op::Load { .. }
        | Op::Unary(_)
        | Op::Narrow { .. }
        | Op::Cast(_)
        | Op::Clear(_)
        | Op::Duplicate
        | Op::Drop
        | Op::Return => Some(1),
        Op::Store { .. } | Op::Binary(_) | Op::Copy(_) | Op::Swap => Some(2),
        Op::Call(arguments) => arguments.checked_add(1),
        Op::Primitive(primitive) => Some(primitive.arguments()),
    }
}

/// How many words an operation pushes. What is pushed again after it was taken counts as both.
fn pushed(op: Op) -> u32 {
    match op {
        Op::Label(_) | Op::Jump(_) | Op::JumpZero(_) | Op::Clear(_) | Op::Drop | Op::Return => 0,
        Op::JumpCase { .. }
        | Op::Number(_)
        | Op::Symbol { .. }
        | Op::Object { .. }
        | Op::SlotGet(_)
        | Op::SlotSet(_)
        | Op::Entry(_)
        | Op::Load { .. }
        | Op::Store { .. }
        | Op::Binary(_)
        | Op::Unary(_)
        | Op::Narrow { .. }
        | Op::Cast(_)
        | Op::Copy(_)
        | Op::Call(_)
        | Op::Primitive(_) => 1,
        Op::Duplicate | Op::Swap => 2,
    }
}

/// How many words are pending after an operation, where so many are before it. None where it takes more than there are, or more than
/// 255 would be pending. At a label it is the label's number.
pub(crate) fn height_after(op: Op, height: u8) -> Option<u8> {
    if let Op::Label(labelled) = op {
        return u8::try_from(labelled).ok();
    }
    let left = u32::from(height).checked_sub(taken(op)?)?;
    u8::try_from(left.checked_add(pushed(op))?).ok()
}
