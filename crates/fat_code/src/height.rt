//! Heights: how many words are on the stack before and behind an operation.

ghost use Rattle.std.specs.Prelude.{◌≡◌, false};
ghost use Rattle.fat_code.specs.Heights.{taken, given, goes_on, height_at, height_behind, reached_behind};
ghost use Rattle.fat_code.specs.OpRows.{label_of, label_at, target_of, is_high};

use crate::op::Op;

/// How many words an operation takes.
pub(crate) fn taken(op: Op) -> u64
    ensures { result ≡ taken op }
{
    match op {
        Op::Label(_)
        | Op::Jump(_)
        | Op::Number(_)
        | Op::Symbol { .. }
        | Op::Object { .. }
        | Op::SlotGet(_)
        | Op::Entry(_) => 0,
        Op::JumpZero(_)
        | Op::JumpCase { .. }
        | Op::SlotSet(_)
        | Op::Load { .. }
        | Op::Unary(_)
        | Op::Narrow { .. }
        | Op::Cast(_)
        | Op::Clear(_)
        | Op::Duplicate
        | Op::Drop
        | Op::Return => 1,
        Op::Store { .. } | Op::Binary(_) | Op::Copy(_) | Op::Swap => 2,
        Op::Call(arguments) => u64::from(arguments) + 1,
        Op::Primitive(primitive) => u64::from(primitive.arguments()),
    }
}

/// How many words it leaves in their place.
pub(crate) fn given(op: Op) -> u64
    ensures { result ≡ given op }
{
    match op {
        Op::Label(_) | Op::Jump(_) | Op::JumpZero(_) | Op::Clear(_) | Op::Drop | Op::Return => 0,
        Op::JumpCase { .. }
        | Op::Number(_)
        | Op::Symbol { .. }
        | Op::Object { .. }
        | Op::SlotGet(_)
        | Op::SlotSet(_)
        | Op::Entry(_)
        | Op::Load { .. }
        | Op::Store { .. }
        | Op::Binary(_)
        | Op::Unary(_)
        | Op::Narrow { .. }
        | Op::Cast(_)
        | Op::Copy(_)
        | Op::Call(_)
        | Op::Primitive(_) => 1,
        Op::Duplicate | Op::Swap => 2,
    }
}

/// Whether the operation behind it follows.
pub(crate) fn goes_on(op: Op) -> bool
    ensures { result ≡ goes_on op }
{
    !matches!(op, Op::Jump(_) | Op::Return)
}

/// The height that a label has; None of every other operation.
pub(crate) fn label_of(op: Op) -> Option<u32>
    ensures { result ≡ label_of op }
{
    match op {
        Op::Label(height) => Some(height),
        _ => None,
    }
}

/// The height of the label that is the operation with an index.
pub(crate) fn label_at(ops: &[Op], index: u32) -> Option<u32>
    ensures { result ≡ label_at ops.now index }
{
    match ops.get(index as usize) {
        Some(op) => label_of(*op),
        None => None,
    }
}

/// Where an operation may jump to.
pub(crate) fn target_of(op: Op) -> Option<u32>
    ensures { result ≡ target_of op }
{
    match op {
        Op::Jump(to) | Op::JumpZero(to) | Op::JumpCase { to, .. } => Some(to),
        _ => None,
    }
}

/// The height before an operation, where the one before it leaves this height, or none where it doesn't go on.
pub(crate) fn height_at(reached: Option<u32>, op: Op) -> u32
    ensures { result ≡ height_at reached op }
{
    match label_of(op) {
        Some(height) => height,
        None => reached.unwrap_or(0),
    }
}

/// The height behind it.
pub(crate) fn height_behind(reached: Option<u32>, op: Op) -> u64
    ensures { result ≡ height_behind reached op }
{
    u64::from(height_at(reached, op)).saturating_sub(taken(op)) + given(op)
}

/// What is reached behind an operation that leaves no more than 255 words, or is a label.
pub(crate) fn reached_behind(reached: Option<u32>, op: Op) -> Option<u32>
    requires { is_high reached op ≡ false }
    ensures { result ≡ reached_behind reached op }
{
    if goes_on(op) {
        Some(height_behind(reached, op) as u32)
    } else {
        None
    }
}
