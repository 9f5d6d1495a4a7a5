//! The faults of operations.

ghost use Rattle.std.specs.Prelude.{◌≡◌, ◌+◌, ◌-◌, ◌++◌, ◌∷◌, [], Some, sum_by};
ghost use Rattle.std.specs.Option.{option_copied};
ghost use Rattle.fat_code.specs.Lengths.{op_bytes};
ghost use Rattle.fat_code.specs.OpRows.{differs, is_wrong_label, is_short, is_wrong_jump, is_high, jump_row, symbol_row, object_row, shape_row, number_rows, ops_from};
ghost use Rattle.fat_code.specs.Walking.{Checks, Clears, is_wrong_end_by, is_wrong_height_by, height_rows_by};

use crate::fault::{CheckNo, UnitFault};
use crate::height::{
    goes_on, height_at, height_behind, label_at, label_of, reached_behind, taken, target_of,
};
use crate::op::Op;
use crate::symbol_check::{object_number, shape_number, symbol_number};
use crate::unit::{FatFunction, FatParts};
use crate::walk::{further, index, limit, number, test};

/// Whether a height is another than the one that is known.
fn differs(known: Option<u32>, height: u64) -> bool
    ensures { result ≡ differs known height }
{
    match known {
        Some(known) => u64::from(known) != height,
        None => false,
    }
}

/// Whether a label has another height than the operation before it leaves.
fn is_wrong_label(reached: Option<u32>, op: Op) -> bool
    ensures { result ≡ is_wrong_label reached op }
{
    match label_of(op) {
        Some(height) => differs(reached, u64::from(height)),
        None => false,
    }
}

/// Whether an operation finds too few words.
fn is_short(reached: Option<u32>, op: Op) -> bool
    ensures { result ≡ is_short reached op }
{
    u64::from(height_at(reached, op)) < taken(op)
}

/// Whether the label to which it jumps has another height.
fn is_wrong_jump(ops: &[Op], reached: Option<u32>, op: Op) -> bool
    ensures { result ≡ is_wrong_jump ops.now reached op }
{
    match target_of(op) {
        Some(to) => differs(label_at(ops, to), height_behind(reached, op)),
        None => false,
    }
}

/// Whether the wrong operation stands behind one.
fn is_wrong_end(op: Op, next: Option<&Op>) -> bool
    ensures { result ≡ is_wrong_end_by op (option_copied next.entry) }
{
    match next {
        Some(next) => !goes_on(op) && label_of(*next).is_none(),
        None => goes_on(op),
    }
}

/// Whether a height is wrong at the operation with an index, or what follows it.
fn is_wrong_height(ops: &[Op], reached: Option<u32>, op: Op, next: Option<&Op>) -> bool
    ensures { result ≡ is_wrong_height_by ops.now reached op (option_copied next.entry) }
{
    is_wrong_label(reached, op)
        || (is_short(reached, op) || (is_wrong_jump(ops, reached, op) || is_wrong_end(op, next)))
}

/// Whether the height behind an operation is above 255. A label's is told at its number.
fn is_high(reached: Option<u32>, op: Op) -> bool
    ensures { result ≡ is_high reached op }
{
    match label_of(op) {
        Some(_) => false,
        None => height_behind(reached, op) > 255,
    }
}

/// The heights at an operation.
fn heights(
    ops: &[Op],
    reached: Option<u32>,
    op: Op,
    next: Option<&Op>,
    at: u64,
) -> Result<(), CheckNo>
    ensures { Clears (height_rows_by ops.now reached at op (option_copied next.entry)) result }
{
    test(UnitFault::Limit, is_high(reached, op), at)?;
    let is_wrong = is_wrong_height(ops, reached, op, next);
    test(UnitFault::Height, is_wrong, at)
}

/// The number of an operation to which one jumps.
fn jump(ops: &[Op], to: u32, at: u64) -> Result<u64, CheckNo>
    ensures { Checks (jump_row ops.now to at ∷ []) (at + 4) result }
{
    number(UnitFault::Index, label_at(ops, to).is_none(), at)
}

/// The number of a shape, and that of a member behind it.
fn shape_member(unit: &FatParts, shape: u32, at: u64) -> Result<u64, CheckNo>
    ensures { Checks (shape_row unit.now shape at ∷ []) (at + 8) result }
{
    let member_at = shape_number(unit, shape, at)?;
    further(member_at, 4)
}

/// The numbers of a jump on a value.
fn jump_case(ops: &[Op], to: u32, at: u64) -> Result<u64, CheckNo>
    ensures { Checks (jump_row ops.now to (at + 4) ∷ []) (at + 8) result }
{
    let to_at = further(at, 4)?;
    jump(ops, to, to_at)
}

/// The numbers of an address of a symbol.
fn symbol(unit: &FatParts, symbol: u32, at: u64) -> Result<u64, CheckNo>
    ensures { Checks (symbol_row unit.now symbol at ∷ []) (at + 8) result }
{
    let offset_at = symbol_number(unit, symbol, at)?;
    further(offset_at, 4)
}

/// The numbers of an address of an object.
fn object(unit: &FatParts, object: u32, at: u64) -> Result<u64, CheckNo>
    ensures { Checks (object_row unit.now object at ∷ []) (at + 8) result }
{
    let offset_at = object_number(unit, object, at)?;
    further(offset_at, 4)
}

/// The numbers of a load.
fn load(unit: &FatParts, shape: u32, at: u64) -> Result<u64, CheckNo>
    ensures { Checks (shape_row unit.now shape (at + 8) ∷ []) (at + 16) result }
{
    let shape_at = further(at, 8)?;
    shape_member(unit, shape, shape_at)
}

/// The numbers of a store.
fn store(unit: &FatParts, shape: u32, at: u64) -> Result<u64, CheckNo>
    ensures { Checks (shape_row unit.now shape (at + 4) ∷ []) (at + 12) result }
{
    let shape_at = further(at, 4)?;
    shape_member(unit, shape, shape_at)
}

/// The numbers of an operation, which stand behind its tag of 4 bytes.
fn numbers(unit: &FatParts, function: &FatFunction, op: Op, tag_at: u64) -> Result<u64, CheckNo>
    ensures { Checks (number_rows unit.now function.now tag_at op) (tag_at + op_bytes op) result }
{
    let at = further(tag_at, 4)?;
    let ops = function.ops.as_slice();
    match op {
        Op::Label(height) => limit(255, u64::from(height), at),
        Op::Jump(to) | Op::JumpZero(to) => jump(ops, to, at),
        Op::JumpCase { to, .. } => jump_case(ops, to, at),
        Op::Symbol { symbol: named, .. } => symbol(unit, named, at),
        Op::Object { object: named, .. } => object(unit, named, at),
        Op::SlotGet(slot) | Op::SlotSet(slot) => index(slot, function.slots as usize, at),
        Op::Entry(entry) => index(entry, function.entries.len(), at),
        Op::Load { shape, .. } => load(unit, shape, at),
        Op::Store { shape, .. } => store(unit, shape, at),
        Op::Cast(shape) => shape_number(unit, shape, at),
        Op::Call(arguments) => limit(64, u64::from(arguments), at),
        Op::Narrow { .. } => further(at, 8),
        Op::Number(_)
        | Op::Binary(_)
        | Op::Unary(_)
        | Op::Copy(_)
        | Op::Clear(_)
        | Op::Primitive(_) => further(at, 4),
        Op::Duplicate | Op::Swap | Op::Drop | Op::Return => Ok(at),
    }
}

/// An operation, and the one behind it.
fn operation(
    unit: &FatParts,
    function: &FatFunction,
    reached: Option<u32>,
    op: Op,
    next: Option<&Op>,
    at: u64,
) -> Result<u64, CheckNo>
    ensures { Checks (height_rows_by function.now.ops reached at op (option_copied next.entry) ++ number_rows unit.now function.now at op) (at + op_bytes op) result }
{
    heights(function.ops.as_slice(), reached, op, next, at)?;
    numbers(unit, function, op, at)
}

/// The operations of a function, behind their count.
pub(crate) fn operations(
    unit: &FatParts,
    function: &FatFunction,
    start: u64,
) -> Result<u64, CheckNo>
    ensures { Checks (ops_from unit.now function.now (Some 0) start function.now.ops) (start + sum_by op_bytes function.now.ops) result }
{
    let ops = function.ops.as_slice();
    let mut at = start;
    let mut reached = Some(0);
    for index in 0..ops.len() {
        let op = ops[index];
        at = operation(
            unit,
            function,
            reached,
            op,
            sqlite_items::at(ops, index + 1),
            at,
        )?;
        reached = reached_behind(reached, op);
    }
    Ok(at)
}
