//! The ends of a run by the environment call 4000.

use crate::entries::Stops;
use crate::routine::routine;
use rv_asm::{AsmNo, Assembler, inst};
use rv_isa::Inst;

/// Stops with Access: block A1, offset A2, width A3.
const STOP_ACCESS: [Inst; 2] = [
    inst!(addi A0, ZERO, 1),
    inst!(jal ZERO, 68), // stop
];

/// Stops with Call: block A1, offset A2.
const STOP_CALL: [Inst; 3] = [
    inst!(addi A3, ZERO, 0),
    inst!(addi A0, ZERO, 2),
    inst!(jal ZERO, 56), // stop
];

/// Stops with Divide.
const STOP_DIVIDE: [Inst; 2] = [
    inst!(addi A0, ZERO, 3),
    inst!(jal ZERO, 36), // stop_plain
];

/// Stops with Abort.
const STOP_ABORT: [Inst; 2] = [
    inst!(addi A0, ZERO, 4),
    inst!(jal ZERO, 28), // stop_plain
];

/// Stops with Blocks.
const STOP_BLOCKS: [Inst; 2] = [
    inst!(addi A0, ZERO, 5),
    inst!(jal ZERO, 20), // stop_plain
];

/// Stops with Depth.
const STOP_DEPTH: [Inst; 2] = [
    inst!(addi A0, ZERO, 6),
    inst!(jal ZERO, 12), // stop_plain
];

/// Stops with ReadOnly: block A1, offset A2, width A3.
const STOP_READONLY: [Inst; 2] = [
    inst!(addi A0, ZERO, 7),
    inst!(jal ZERO, 16), // stop
];

/// The stops without a block, and then the environment call 4000.
const STOP_PLAIN: [Inst; 6] = [
    inst!(addi A1, ZERO, 0),
    inst!(addi A2, ZERO, 0),
    inst!(addi A3, ZERO, 0),
    // stop
    inst!(lui A7, 1),
    inst!(addi A7, A7, -96),
    inst!(ecall),
];

/// Emits the stops.
pub(crate) fn emit_stops(asm: &mut Assembler) -> Result<Stops, AsmNo> {
    let access = routine(asm, &STOP_ACCESS)?;
    let call = routine(asm, &STOP_CALL)?;
    let divide = routine(asm, &STOP_DIVIDE)?;
    let abort = routine(asm, &STOP_ABORT)?;
    let blocks = routine(asm, &STOP_BLOCKS)?;
    let depth = routine(asm, &STOP_DEPTH)?;
    let read_only = routine(asm, &STOP_READONLY)?;
    asm.emit_all(&STOP_PLAIN)?;
    Ok(Stops {
        access,
        call,
        divide,
        abort,
        blocks,
        depth,
        read_only,
    })
}
