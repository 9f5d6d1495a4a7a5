//! Calls, entries and returns.

use crate::entries::Calls;
use crate::layout::{
    BASE, CELL, COUNT, DESC, FAT_WORD, FIRST_BLOCK, RETURN, SLOT_BLOCK, SLOT_VALUE,
};
use crate::routine::routine;
use rv_asm::{AsmNo, Assembler, inst};
use rv_isa::Inst;

/// Calls the word at the frame's start: a function at offset 0, where an activation is free.
const CALL: [Inst; 19] = [
    inst!(lw A0, RETURN(S0)),
    inst!(lw A1, FIRST_BLOCK(S0)),
    inst!(beq A1, ZERO, 60), // call_none
    inst!(slli T0, A1, 4),
    inst!(add T0, T0, S1),
    inst!(lw T1, BASE(T0)),
    inst!(sub A0, A0, T1),
    inst!(lw T1, DESC(T0)),
    inst!(addi T2, ZERO, 1),
    inst!(bne T1, T2, 32), // call_none
    inst!(bne A0, ZERO, 28), // call_none
    inst!(beq S3, ZERO, 548), // stop_depth
    inst!(addi S3, S3, -1),
    inst!(sw RA, RETURN(S0)),
    inst!(lw T0, CELL(T0)),
    inst!(lw T0, 0(T0)),
    inst!(jalr ZERO, 0(T0)),
    // call_none
    inst!(addi A2, A0, 0),
    inst!(jal ZERO, 484), // stop_call
];

/// The entry of a function that is not variadic: A2 words were passed, A3 are its parameters, A4 its slots. Slots without a
/// word become 0.
const ENTER: [Inst; 15] = [
    inst!(lw T0, COUNT(S2)),
    inst!(addi T0, T0, 1),
    inst!(sw T0, FIRST_BLOCK(S0)),
    // enter_slots
    inst!(bgeu A3, A2, 8), // enter_few
    inst!(addi A2, A3, 0),
    // enter_few
    inst!(slli T0, A2, 3),
    inst!(add T0, T0, S0),
    inst!(slli T1, A4, 3),
    inst!(add T1, T1, S0),
    inst!(bgeu T0, T1, 20), // enter_done
    // enter_next
    inst!(sw ZERO, SLOT_VALUE(T0)),
    inst!(sw ZERO, SLOT_BLOCK(T0)),
    inst!(addi T0, T0, 8),
    inst!(bltu T0, T1, -12), // enter_next
    // enter_done
    inst!(jalr ZERO, 0(RA)),
];

/// The entry of a variadic function: as `ENTER`, and S7 words are passed beyond its parameters.
const ENTER_VARIADIC: [Inst; 9] = [
    inst!(lw T0, COUNT(S2)),
    inst!(addi T0, T0, 1),
    inst!(sw T0, FIRST_BLOCK(S0)),
    inst!(addi S4, A2, 0),
    inst!(addi S5, A3, 0),
    inst!(addi S6, A4, 0),
    inst!(addi S7, ZERO, 0),
    inst!(bgeu S5, S4, 8), // variadic_make
    inst!(sub S7, S4, S5),
];

/// The rest of `ENTER_VARIADIC`: the block of these words.
const VARIADIC_MAKE: [Inst; 23] = [
    inst!(slli A2, S7, 2),
    inst!(addi A3, S2, FAT_WORD),
    inst!(addi A4, ZERO, 0),
    inst!(jal GP, -504), // make
    inst!(beq A1, ZERO, 396), // stop_blocks
    inst!(slli T0, A1, 4),
    inst!(add T0, T0, S1),
    inst!(lw T0, CELL(T0)),
    inst!(slli T1, S5, 3),
    inst!(add T1, T1, S0),
    inst!(beq S7, ZERO, 36), // variadic_done
    // variadic_next
    inst!(lw T2, SLOT_VALUE(T1)),
    inst!(lw T3, SLOT_BLOCK(T1)),
    inst!(sw T3, 0(T0)),
    inst!(sw T2, 4(T0)),
    inst!(addi T0, T0, 8),
    inst!(addi T1, T1, 8),
    inst!(addi S7, S7, -1),
    inst!(bne S7, ZERO, -28), // variadic_next
    // variadic_done
    inst!(addi A2, S4, 0),
    inst!(addi A3, S5, 0),
    inst!(addi A4, S6, 0),
    inst!(jal ZERO, -172), // enter_slots
];

/// Ends the A2 blocks of the activation in order, and goes back to the caller. A0, A1 stays.
const LEAVE: [Inst; 9] = [
    inst!(lw A3, FIRST_BLOCK(S0)),
    inst!(beq A2, ZERO, 20), // leave_done
    // leave_next
    inst!(jal GP, -368), // end_block
    inst!(addi A3, A3, 1),
    inst!(addi A2, A2, -1),
    inst!(bne A2, ZERO, -12), // leave_next
    // leave_done
    inst!(lw RA, RETURN(S0)),
    inst!(addi S3, S3, 1),
    inst!(jalr ZERO, 0(RA)),
];

/// Emits calls, entries and returns.
pub(crate) fn emit_calls(asm: &mut Assembler) -> Result<Calls, AsmNo> {
    let call = routine(asm, &CALL)?;
    let enter = routine(asm, &ENTER)?;
    let enter_variadic = routine(asm, &ENTER_VARIADIC)?;
    asm.emit_all(&VARIADIC_MAKE)?;
    let leave = routine(asm, &LEAVE)?;
    Ok(Calls {
        call,
        enter,
        enter_variadic,
        leave,
    })
}
