//! Accesses that the code makes most: whole aligned accesses of blocks whose shape has one word. Whatever they do not serve goes to
//! the method for its width with the same registers, before anything is written. Each returns by RA.

use crate::entries::Accesses;
use crate::layout::{BASE, CELL, DESC, SIZE};
use crate::routine::routine;
use rv_asm::{AsmNo, Assembler, inst};
use rv_isa::Inst;

/// A load of 4 bytes at A0, A1 where the shape at T4 is one fat word.
const NEAR_LOAD4: [Inst; 20] = [
    inst!(beq A1, ZERO, 556), // load4
    inst!(slli T0, A1, 4),
    inst!(add T0, T0, S1),
    inst!(lw T1, DESC(T0)),
    inst!(add T2, T4, S2),
    inst!(andi T1, T1, -2),
    inst!(bne T1, T2, 532), // load4
    inst!(lw T1, BASE(T0)),
    inst!(sub T1, A0, T1),
    inst!(andi T3, T1, 3),
    inst!(bne T3, ZERO, 516), // load4
    inst!(lw T2, SIZE(T0)),
    inst!(addi T3, T1, 3),
    inst!(bgeu T3, T2, 504), // load4
    inst!(lw T0, CELL(T0)),
    inst!(add T0, T0, T1),
    inst!(add T0, T0, T1),
    inst!(lw A0, 4(T0)),
    inst!(lw A1, 0(T0)),
    inst!(jalr ZERO, 0(RA)),
];

/// A load of 1 byte at A0, A1 where the shape at T4 is one narrow word.
const NEAR_LOAD1: [Inst; 16] = [
    inst!(beq A1, ZERO, 396), // load1
    inst!(slli T0, A1, 4),
    inst!(add T0, T0, S1),
    inst!(lw T1, DESC(T0)),
    inst!(add T2, T4, S2),
    inst!(andi T1, T1, -2),
    inst!(bne T1, T2, 372), // load1
    inst!(lw T1, BASE(T0)),
    inst!(sub T1, A0, T1),
    inst!(lw T2, SIZE(T0)),
    inst!(bgeu T1, T2, 356), // load1
    inst!(lw T0, CELL(T0)),
    inst!(add T0, T0, T1),
    inst!(lbu A0, 0(T0)),
    inst!(addi A1, ZERO, 0),
    inst!(jalr ZERO, 0(RA)),
];

/// A load of 2 bytes at A0, A1 where the shape at T4 is one narrow word.
const NEAR_LOAD2: [Inst; 19] = [
    inst!(beq A1, ZERO, 368), // load2
    inst!(slli T0, A1, 4),
    inst!(add T0, T0, S1),
    inst!(lw T1, DESC(T0)),
    inst!(add T2, T4, S2),
    inst!(andi T1, T1, -2),
    inst!(bne T1, T2, 344), // load2
    inst!(lw T1, BASE(T0)),
    inst!(sub T1, A0, T1),
    inst!(andi T3, T1, 1),
    inst!(bne T3, ZERO, 328), // load2
    inst!(lw T2, SIZE(T0)),
    inst!(addi T3, T1, 1),
    inst!(bgeu T3, T2, 316), // load2
    inst!(lw T0, CELL(T0)),
    inst!(add T0, T0, T1),
    inst!(lhu A0, 0(T0)),
    inst!(addi A1, ZERO, 0),
    inst!(jalr ZERO, 0(RA)),
];

/// A store of the word A0, A1 at A2, A3 where the shape at T4 is one fat word.
const NEAR_STORE4: [Inst; 19] = [
    inst!(beq A3, ZERO, 492), // store4
    inst!(slli T0, A3, 4),
    inst!(add T0, T0, S1),
    inst!(lw T1, DESC(T0)),
    inst!(add T2, T4, S2),
    inst!(bne T1, T2, 472), // store4
    inst!(lw T1, BASE(T0)),
    inst!(sub T1, A2, T1),
    inst!(andi T3, T1, 3),
    inst!(bne T3, ZERO, 456), // store4
    inst!(lw T2, SIZE(T0)),
    inst!(addi T3, T1, 3),
    inst!(bgeu T3, T2, 444), // store4
    inst!(lw T0, CELL(T0)),
    inst!(add T0, T0, T1),
    inst!(add T0, T0, T1),
    inst!(sw A0, 4(T0)),
    inst!(sw A1, 0(T0)),
    inst!(jalr ZERO, 0(RA)),
];

/// A store of the low byte of A0 at A2, A3 where the shape at T4 is one narrow word. It clears the base of the word.
const NEAR_STORE1: [Inst; 21] = [
    inst!(beq A3, ZERO, 352), // store1
    inst!(slli T0, A3, 4),
    inst!(add T0, T0, S1),
    inst!(lw T1, DESC(T0)),
    inst!(add T2, T4, S2),
    inst!(bne T1, T2, 332), // store1
    inst!(lw T1, BASE(T0)),
    inst!(sub T1, A2, T1),
    inst!(lw T2, SIZE(T0)),
    inst!(bgeu T1, T2, 316), // store1
    inst!(lw T0, CELL(T0)),
    inst!(add T3, T0, T1),
    inst!(sb A0, 0(T3)),
    inst!(addi T2, T2, 3),
    inst!(andi T2, T2, -4),
    inst!(add T0, T0, T2),
    inst!(add T0, T0, T2),
    inst!(andi T1, T1, -4),
    inst!(sub T0, T0, T1),
    inst!(sw ZERO, -4(T0)),
    inst!(jalr ZERO, 0(RA)),
];

/// A store of the low 2 bytes of A0 at A2, A3 where the shape at T4 is one narrow word. It clears the base of the word.
const NEAR_STORE2: [Inst; 24] = [
    inst!(beq A3, ZERO, 296), // store2
    inst!(slli T0, A3, 4),
    inst!(add T0, T0, S1),
    inst!(lw T1, DESC(T0)),
    inst!(add T2, T4, S2),
    inst!(bne T1, T2, 276), // store2
    inst!(lw T1, BASE(T0)),
    inst!(sub T1, A2, T1),
    inst!(andi T3, T1, 1),
    inst!(bne T3, ZERO, 260), // store2
    inst!(lw T2, SIZE(T0)),
    inst!(addi T3, T1, 1),
    inst!(bgeu T3, T2, 248), // store2
    inst!(lw T0, CELL(T0)),
    inst!(add T3, T0, T1),
    inst!(sh A0, 0(T3)),
    inst!(addi T2, T2, 3),
    inst!(andi T2, T2, -4),
    inst!(add T0, T0, T2),
    inst!(add T0, T0, T2),
    inst!(andi T1, T1, -4),
    inst!(sub T0, T0, T1),
    inst!(sw ZERO, -4(T0)),
    inst!(jalr ZERO, 0(RA)),
];

/// Emits the near routines.
pub(crate) fn emit_near(asm: &mut Assembler) -> Result<Accesses, AsmNo> {
    let load4 = routine(asm, &NEAR_LOAD4)?;
    let load1 = routine(asm, &NEAR_LOAD1)?;
    let load2 = routine(asm, &NEAR_LOAD2)?;
    let store4 = routine(asm, &NEAR_STORE4)?;
    let store1 = routine(asm, &NEAR_STORE1)?;
    let store2 = routine(asm, &NEAR_STORE2)?;
    Ok(Accesses {
        load1,
        load2,
        load4,
        store1,
        store2,
        store4,
    })
}
