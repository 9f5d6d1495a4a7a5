//! The accesses of widths 1, 2 and 4 of any block. Each returns by RA; inside, GP and TP are links.

use crate::entries::Accesses;
use crate::routine::routine;
use rv_asm::{AsmNo, Assembler, inst};
use rv_isa::Inst;

/// The byte at A0, A1, by the shape at T4 and the member T5.
const LOAD1: [Inst; 9] = [
    inst!(addi A2, A0, 0),
    inst!(addi A3, A1, 0),
    inst!(addi A4, ZERO, 1),
    inst!(addi A5, ZERO, 0),
    inst!(jal GP, 292), // front
    inst!(jal TP, 468), // spot
    inst!(lbu A0, 0(A6)),
    inst!(addi A1, ZERO, 0),
    inst!(jalr ZERO, 0(RA)),
];

/// The 2 bytes at A0, A1, by the shape at T4 and the member T5.
const LOAD2: [Inst; 11] = [
    inst!(addi A2, A0, 0),
    inst!(addi A3, A1, 0),
    inst!(addi A4, ZERO, 2),
    inst!(addi A5, ZERO, 0),
    inst!(jal GP, 256), // front
    inst!(andi T3, T1, 1),
    inst!(bne T3, ZERO, 64), // gather
    inst!(jal TP, 424), // spot
    inst!(lhu A0, 0(A6)),
    inst!(addi A1, ZERO, 0),
    inst!(jalr ZERO, 0(RA)),
];

/// The 4 bytes at A0, A1, by the shape at T4 and the member T5, with their base where they are one word.
const LOAD4: [Inst; 11] = [
    inst!(addi A2, A0, 0),
    inst!(addi A3, A1, 0),
    inst!(addi A4, ZERO, 4),
    inst!(addi A5, ZERO, 0),
    inst!(jal GP, 212), // front
    inst!(andi T3, T1, 3),
    inst!(bne T3, ZERO, 20), // gather
    inst!(jal TP, 380), // spot
    inst!(lw A0, 0(A6)),
    inst!(lw A1, 0(A7)),
    inst!(jalr ZERO, 0(RA)),
];

/// The rest of a load that is not aligned: A4 bytes, one by one. They have no base.
const GATHER: [Inst; 12] = [
    inst!(addi A0, ZERO, 0),
    inst!(addi A3, ZERO, 0),
    // gather_next
    inst!(jal TP, 356), // spot
    inst!(lbu T3, 0(A6)),
    inst!(sll T3, T3, A3),
    inst!(add A0, A0, T3),
    inst!(addi A3, A3, 8),
    inst!(addi T1, T1, 1),
    inst!(addi A4, A4, -1),
    inst!(bne A4, ZERO, -28), // gather_next
    inst!(addi A1, ZERO, 0),
    inst!(jalr ZERO, 0(RA)),
];

/// Stores the low byte of A0 at A2, A3, by the shape at T4 and the member T5.
const STORE1: [Inst; 7] = [
    inst!(addi A4, ZERO, 1),
    inst!(addi A5, ZERO, 1),
    inst!(jal GP, 128), // front
    inst!(jal TP, 304), // spot
    inst!(sb A0, 0(A6)),
    inst!(sw ZERO, 0(A7)),
    inst!(jalr ZERO, 0(RA)),
];

/// Stores the low 2 bytes of A0 at A2, A3, by the shape at T4 and the member T5.
const STORE2: [Inst; 9] = [
    inst!(addi A4, ZERO, 2),
    inst!(addi A5, ZERO, 1),
    inst!(jal GP, 100), // front
    inst!(andi T3, T1, 1),
    inst!(bne T3, ZERO, 56), // scatter
    inst!(jal TP, 268), // spot
    inst!(sh A0, 0(A6)),
    inst!(sw ZERO, 0(A7)),
    inst!(jalr ZERO, 0(RA)),
];

/// Stores A0, A1 at A2, A3, by the shape at T4 and the member T5, with the base A1 where it is one word.
const STORE4: [Inst; 9] = [
    inst!(addi A4, ZERO, 4),
    inst!(addi A5, ZERO, 1),
    inst!(jal GP, 64), // front
    inst!(andi T3, T1, 3),
    inst!(bne T3, ZERO, 20), // scatter
    inst!(jal TP, 232), // spot
    inst!(sw A0, 0(A6)),
    inst!(sw A1, 0(A7)),
    inst!(jalr ZERO, 0(RA)),
];

/// The rest of a store that is not aligned: A4 bytes, one by one. The words that they touch lose their bases.
const SCATTER: [Inst; 9] = [
    inst!(addi A2, A0, 0),
    // scatter_next
    inst!(jal TP, 212), // spot
    inst!(sb A2, 0(A6)),
    inst!(sw ZERO, 0(A7)),
    inst!(srli A2, A2, 8),
    inst!(addi T1, T1, 1),
    inst!(addi A4, A4, -1),
    inst!(bne A4, ZERO, -24), // scatter_next
    inst!(jalr ZERO, 0(RA)),
];

/// Emits the loads and the stores.
pub(crate) fn emit_methods(asm: &mut Assembler) -> Result<Accesses, AsmNo> {
    let load1 = routine(asm, &LOAD1)?;
    let load2 = routine(asm, &LOAD2)?;
    let load4 = routine(asm, &LOAD4)?;
    asm.emit_all(&GATHER)?;
    let store1 = routine(asm, &STORE1)?;
    let store2 = routine(asm, &STORE2)?;
    let store4 = routine(asm, &STORE4)?;
    asm.emit_all(&SCATTER)?;
    Ok(Accesses {
        load1,
        load2,
        load4,
        store1,
        store2,
        store4,
    })
}
