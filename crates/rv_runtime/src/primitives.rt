//! The primitives of the library. Each returns by RA.

use crate::entries::Primitives;
use crate::layout::{BASE, BUFFER, DESC, FIRST_BLOCK, MAKERS, SIZE};
use crate::routine::routine;
use rv_asm::{AsmNo, Assembler, inst};
use rv_isa::Inst;

/// Writes the low byte of A0, and gives it.
const PUT: [Inst; 10] = [
    inst!(andi T0, A0, 255),
    inst!(sb A0, BUFFER(S2)),
    inst!(addi A0, ZERO, 1),
    inst!(addi A1, S2, BUFFER),
    inst!(addi A2, ZERO, 1),
    inst!(addi A7, ZERO, 64),
    inst!(ecall),
    inst!(addi A0, T0, 0),
    inst!(addi A1, ZERO, 0),
    inst!(jalr ZERO, 0(RA)),
];

/// The next byte of the input, or -1 at its end.
const GET: [Inst; 11] = [
    inst!(addi A0, ZERO, 0),
    inst!(addi A1, S2, BUFFER),
    inst!(addi A2, ZERO, 1),
    inst!(addi A7, ZERO, 63),
    inst!(ecall),
    inst!(addi A1, ZERO, 0),
    inst!(beq A0, ZERO, 12), // get_end
    inst!(lbu A0, BUFFER(S2)),
    inst!(jalr ZERO, 0(RA)),
    // get_end
    inst!(addi A0, ZERO, -1),
    inst!(jalr ZERO, 0(RA)),
];

/// Makes a block of A0 bytes that is undecided.
const ALLOC: [Inst; 5] = [
    inst!(addi A2, A0, 0),
    inst!(addi A3, ZERO, 2),
    inst!(addi A4, ZERO, 1),
    inst!(jal GP, -716), // make
    inst!(jalr ZERO, 0(RA)),
];

/// Tests that A0, A1 is the start of a live block that `ALLOC` made. It gives the header T0.
const OWNED: [Inst; 18] = [
    inst!(addi T1, A0, 0),
    inst!(beq A1, ZERO, 56), // owned_none
    inst!(slli T0, A1, 4),
    inst!(add T0, T0, S1),
    inst!(lw T1, BASE(T0)),
    inst!(sub T1, A0, T1),
    inst!(bne T1, ZERO, 36), // owned_none
    inst!(lw T2, DESC(T0)),
    inst!(sltiu T2, T2, 2),
    inst!(bne T2, ZERO, 24), // owned_none
    inst!(lw T2, MAKERS(S2)),
    inst!(add T2, T2, A1),
    inst!(lbu T2, 0(T2)),
    inst!(beq T2, ZERO, 8), // owned_none
    inst!(jalr ZERO, 0(GP)),
    // owned_none
    inst!(addi A2, T1, 0),
    inst!(addi A3, ZERO, 0),
    inst!(jal ZERO, 76), // stop_access
];

/// Ends the life of the block at A0, A1; does nothing where A0 is 0.
const RELEASE: [Inst; 7] = [
    inst!(beq A0, ZERO, 16), // release_done
    inst!(jal GP, -76), // owned
    inst!(addi A3, A1, 0),
    inst!(jal GP, -584), // end_block
    // release_done
    inst!(addi A0, ZERO, 0),
    inst!(addi A1, ZERO, 0),
    inst!(jalr ZERO, 0(RA)),
];

/// The size of the block at A0, A1.
const SIZE_OF: [Inst; 4] = [
    inst!(jal GP, -100), // owned
    inst!(lw A0, SIZE(T0)),
    inst!(addi A1, ZERO, 0),
    inst!(jalr ZERO, 0(RA)),
];

/// Ends the run with the status A0.
const EXIT: [Inst; 2] = [inst!(addi A7, ZERO, 93), inst!(ecall)];

/// The address of the block of the words beyond the parameters.
const VA: [Inst; 5] = [
    inst!(lw A1, FIRST_BLOCK(S0)),
    inst!(slli T0, A1, 4),
    inst!(add T0, T0, S1),
    inst!(lw A0, BASE(T0)),
    inst!(jalr ZERO, 0(RA)),
];

/// Emits the primitives.
pub(crate) fn emit_primitives(asm: &mut Assembler) -> Result<Primitives, AsmNo> {
    let put = routine(asm, &PUT)?;
    let get = routine(asm, &GET)?;
    let alloc = routine(asm, &ALLOC)?;
    asm.emit_all(&OWNED)?;
    let release = routine(asm, &RELEASE)?;
    let size = routine(asm, &SIZE_OF)?;
    let exit = routine(asm, &EXIT)?;
    let va = routine(asm, &VA)?;
    Ok(Primitives {
        put,
        get,
        alloc,
        release,
        size,
        exit,
        va,
    })
}
