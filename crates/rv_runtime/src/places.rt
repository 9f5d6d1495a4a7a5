//! What an access tests, and where bytes and bases stand.

use crate::layout::{BASE, CELL, DESC, SIZE};
use rv_asm::{AsmNo, Assembler, inst};
use rv_isa::Inst;

/// What each access tests: the address A2, A3, its width A4, and A5, 1 for a store and 0 for a load; the shape at T4, the member T5.
/// It decides an undecided block.
const FRONT: [Inst; 12] = [
    inst!(beq A3, ZERO, 136), // front_none
    inst!(slli T0, A3, 4),
    inst!(add T0, T0, S1),
    inst!(lw T1, BASE(T0)),
    inst!(sub T1, A2, T1),
    inst!(lw T2, DESC(T0)),
    inst!(addi T3, ZERO, 2),
    inst!(bltu T2, T3, 112), // front_outside
    inst!(add T4, T4, S2),
    inst!(bne T2, T3, 12), // front_decided
    inst!(sw T4, DESC(T0)),
    inst!(addi T2, T4, 0),
];

/// The rest of `FRONT`: bounds, the seal, and whether the access is near. It gives the header T0, the offset T1 and the descriptor T2,
/// and marks once where the access is away.
const FRONT_DECIDED: [Inst; 22] = [
    inst!(lw T3, SIZE(T0)),
    inst!(bltu T3, T1, 88), // front_outside
    inst!(sub A6, T3, T1),
    inst!(bltu A6, A4, 80), // front_outside
    inst!(andi A6, T2, 1),
    inst!(sub T2, T2, A6),
    inst!(and A6, A6, A5),
    inst!(bne A6, ZERO, 84), // front_sealed
    inst!(bne T2, T4, 48), // front_away
    inst!(addi A6, A4, -1),
    inst!(and A6, A6, T1),
    inst!(bne A6, ZERO, 36), // front_away
    inst!(lw A6, 0(T4)),
    inst!(addi A7, ZERO, 1),
    inst!(beq A6, A7, 28), // front_near
    inst!(sub A7, T1, T5),
    inst!(bgeu A7, T3, 16), // front_away
    inst!(slli A6, A6, 2),
    inst!(remu A7, A7, A6),
    inst!(beq A7, ZERO, 8), // front_near
    // front_away
    inst!(addi ZERO, ZERO, 1),
    // front_near
    inst!(jalr ZERO, 0(GP)),
];

/// The ends of `FRONT`. A failing access is away too.
const FRONT_NONE: [Inst; 11] = [
    inst!(addi T1, A2, 0),
    // front_outside
    inst!(addi ZERO, ZERO, 1),
    inst!(addi A1, A3, 0),
    inst!(addi A2, T1, 0),
    inst!(addi A3, A4, 0),
    inst!(jal ZERO, 1580), // stop_access
    // front_sealed
    inst!(addi ZERO, ZERO, 1),
    inst!(addi A1, A3, 0),
    inst!(addi A2, T1, 0),
    inst!(addi A3, A4, 0),
    inst!(jal ZERO, 1612), // stop_readonly
];

/// The place A6 of the byte at the offset T1 of the block with the header T0 and the descriptor T2, and the place A7 of the base of
/// its word.
const SPOT: [Inst; 22] = [
    inst!(lw T3, 0(T2)),
    inst!(srli T5, T1, 2),
    inst!(divu A6, T5, T3),
    inst!(remu T5, T5, T3),
    inst!(slli T3, T3, 2),
    inst!(sub T3, T2, T3),
    inst!(lw T3, -4(T3)),
    inst!(mul A6, A6, T3),
    inst!(slli T5, T5, 2),
    inst!(sub T5, T2, T5),
    inst!(lw T3, -8(T5)),
    inst!(lw T5, -4(T5)),
    inst!(add A7, A6, T5),
    inst!(add A6, A6, T3),
    inst!(beq T3, T5, 32), // spot_narrow
    inst!(lw T3, CELL(T0)),
    inst!(add A6, A6, T3),
    inst!(add A6, A6, T1),
    inst!(andi T5, T1, -4),
    inst!(add A7, A7, T3),
    inst!(add A7, A7, T5),
    inst!(jalr ZERO, 0(TP)),
];

/// The rest of `SPOT` for a narrow word, whose base stands at the end of the words and bases.
const SPOT_NARROW: [Inst; 13] = [
    inst!(lw T3, CELL(T0)),
    inst!(add A6, A6, T3),
    inst!(add A6, A6, T1),
    inst!(lw T5, SIZE(T0)),
    inst!(addi T5, T5, 3),
    inst!(andi T5, T5, -4),
    inst!(add A7, A7, T3),
    inst!(add A7, A7, T5),
    inst!(add A7, A7, T5),
    inst!(andi T5, T1, -4),
    inst!(sub A7, A7, T5),
    inst!(addi A7, A7, -4),
    inst!(jalr ZERO, 0(TP)),
];

/// Tests that A4 bytes at A5, A6 are within a live object. It gives the header T0, the offset T1 and the descriptor T2.
const BOUNDS: [Inst; 18] = [
    inst!(beq A6, ZERO, 52), // bounds_none
    inst!(slli T0, A6, 4),
    inst!(add T0, T0, S1),
    inst!(lw T1, BASE(T0)),
    inst!(sub T1, A5, T1),
    inst!(lw T2, DESC(T0)),
    inst!(addi T3, ZERO, 2),
    inst!(bltu T2, T3, 28), // bounds_outside
    inst!(lw T3, SIZE(T0)),
    inst!(bltu T3, T1, 20), // bounds_outside
    inst!(sub T3, T3, T1),
    inst!(bltu T3, A4, 12), // bounds_outside
    inst!(jalr ZERO, 0(GP)),
    // bounds_none
    inst!(addi T1, A5, 0),
    // bounds_outside
    inst!(addi A1, A6, 0),
    inst!(addi A2, T1, 0),
    inst!(addi A3, A4, 0),
    inst!(jal ZERO, 1348), // stop_access
];

/// Emits the tests and the places, which only other routines call.
pub(crate) fn emit_places(asm: &mut Assembler) -> Result<(), AsmNo> {
    asm.emit_all(&FRONT)?;
    asm.emit_all(&FRONT_DECIDED)?;
    asm.emit_all(&FRONT_NONE)?;
    asm.emit_all(&SPOT)?;
    asm.emit_all(&SPOT_NARROW)?;
    asm.emit_all(&BOUNDS)
}
