//! Copies, clearing and deciding.

use crate::entries::Ranges;
use crate::layout::DESC;
use crate::routine::routine;
use rv_asm::{AsmNo, Assembler, inst};
use rv_isa::Inst;

/// Copies A4 bytes from A0, A1 to A2, A3, which stays. The source is tested first, then the target. An undecided target
/// becomes decided as a decided source is.
const COPY: [Inst; 21] = [
    inst!(beq A4, ZERO, 156), // copy_done
    inst!(addi A5, A0, 0),
    inst!(addi A6, A1, 0),
    inst!(jal GP, -84), // bounds
    inst!(addi S4, T0, 0),
    inst!(addi S5, T1, 0),
    inst!(andi S6, T2, -2),
    inst!(addi A5, A2, 0),
    inst!(addi A6, A3, 0),
    inst!(jal GP, -108), // bounds
    inst!(addi S7, T0, 0),
    inst!(addi S8, T1, 0),
    inst!(addi S9, T2, 0),
    inst!(andi T3, S9, 1),
    inst!(bne T3, ZERO, 164), // copy_sealed
    inst!(addi T3, ZERO, 2),
    inst!(bne S9, T3, 20), // copy_decided
    inst!(beq S6, T3, 88), // copy_done
    inst!(sw S6, DESC(S7)),
    inst!(addi S9, S6, 0),
    inst!(jal ZERO, 12), // copy_start
];

/// The rest of `COPY`, upward: a piece is a whole word with its base, or a byte. An undecided source is read by the target's descriptor.
const COPY_DECIDED: [Inst; 19] = [
    inst!(bne S6, T3, 8), // copy_start
    inst!(addi S6, S9, 0),
    // copy_start
    inst!(sub S10, S8, S5),
    inst!(andi S10, S10, 3),
    inst!(bne S4, S7, 8), // copy_up
    inst!(bltu S5, S8, 56), // copy_down
    // copy_up
    inst!(addi S11, ZERO, 1),
    inst!(bne S10, ZERO, 24), // copy_up_piece
    inst!(andi T3, S8, 3),
    inst!(bne T3, ZERO, 16), // copy_up_piece
    inst!(addi T3, ZERO, 4),
    inst!(bltu A4, T3, 8), // copy_up_piece
    inst!(addi S11, T3, 0),
    // copy_up_piece
    inst!(jal GP, 100), // move
    inst!(add S5, S5, S11),
    inst!(add S8, S8, S11),
    inst!(sub A4, A4, S11),
    inst!(bne A4, ZERO, -44), // copy_up
    // copy_done
    inst!(jalr ZERO, 0(RA)),
];

/// The rest of `COPY`, downward, where the target lies behind the source in one block.
const COPY_DOWN: [Inst; 19] = [
    inst!(add S5, S5, A4),
    inst!(add S8, S8, A4),
    // copy_down_next
    inst!(addi S11, ZERO, 1),
    inst!(bne S10, ZERO, 24), // copy_down_piece
    inst!(andi T3, S8, 3),
    inst!(bne T3, ZERO, 16), // copy_down_piece
    inst!(addi T3, ZERO, 4),
    inst!(bltu A4, T3, 8), // copy_down_piece
    inst!(addi S11, T3, 0),
    // copy_down_piece
    inst!(sub S5, S5, S11),
    inst!(sub S8, S8, S11),
    inst!(sub A4, A4, S11),
    inst!(jal GP, 28), // move
    inst!(bne A4, ZERO, -44), // copy_down_next
    inst!(jalr ZERO, 0(RA)),
    // copy_sealed
    inst!(addi A1, A3, 0),
    inst!(addi A2, S8, 0),
    inst!(addi A3, A4, 0),
    inst!(jal ZERO, 1164), // stop_readonly
];

/// Moves one piece of S11 bytes, 1 or 4, from the offset S5 of the header S4 to the offset S8 of the header S7.
const MOVE: [Inst; 23] = [
    inst!(addi T0, S4, 0),
    inst!(addi T1, S5, 0),
    inst!(addi T2, S6, 0),
    inst!(jal TP, -460), // spot
    inst!(addi T3, ZERO, 1),
    inst!(beq S11, T3, 40), // move_byte
    inst!(lw A0, 0(A6)),
    inst!(lw A1, 0(A7)),
    inst!(addi T0, S7, 0),
    inst!(addi T1, S8, 0),
    inst!(addi T2, S9, 0),
    inst!(jal TP, -492), // spot
    inst!(sw A0, 0(A6)),
    inst!(sw A1, 0(A7)),
    inst!(jalr ZERO, 0(GP)),
    // move_byte
    inst!(lbu A0, 0(A6)),
    inst!(addi T0, S7, 0),
    inst!(addi T1, S8, 0),
    inst!(addi T2, S9, 0),
    inst!(jal TP, -524), // spot
    inst!(sb A0, 0(A6)),
    inst!(sw ZERO, 0(A7)),
    inst!(jalr ZERO, 0(GP)),
];

/// Clears A4 bytes at A0, A1, and the bases of the words that they touch.
const CLEAR: [Inst; 28] = [
    inst!(beq A4, ZERO, 72), // clear_done
    inst!(addi A5, A0, 0),
    inst!(addi A6, A1, 0),
    inst!(jal GP, -412), // bounds
    inst!(andi T3, T2, 1),
    inst!(bne T3, ZERO, 76), // clear_sealed
    inst!(addi T3, ZERO, 2),
    inst!(beq T2, T3, 44), // clear_done
    // clear_next
    inst!(jal TP, -572), // spot
    inst!(sw ZERO, 0(A7)),
    inst!(andi T3, T1, 3),
    inst!(bne T3, ZERO, 32), // clear_byte
    inst!(addi T3, ZERO, 4),
    inst!(bltu A4, T3, 24), // clear_byte
    inst!(sw ZERO, 0(A6)),
    inst!(addi T1, T1, 4),
    inst!(addi A4, A4, -4),
    inst!(bne A4, ZERO, -36), // clear_next
    // clear_done
    inst!(jalr ZERO, 0(RA)),
    // clear_byte
    inst!(sb ZERO, 0(A6)),
    inst!(addi T1, T1, 1),
    inst!(addi A4, A4, -1),
    inst!(bne A4, ZERO, -56), // clear_next
    inst!(jalr ZERO, 0(RA)),
    // clear_sealed
    inst!(addi A1, A6, 0),
    inst!(addi A2, T1, 0),
    inst!(addi A3, A4, 0),
    inst!(jal ZERO, 960), // stop_readonly
];

/// Decides the block A1 as the shape at T4, where it is an undecided object. A0 and A1 stay.
const DECIDE: [Inst; 9] = [
    inst!(beq A1, ZERO, 32), // decide_done
    inst!(slli T0, A1, 4),
    inst!(add T0, T0, S1),
    inst!(lw T1, DESC(T0)),
    inst!(addi T2, ZERO, 2),
    inst!(bne T1, T2, 12), // decide_done
    inst!(add T4, T4, S2),
    inst!(sw T4, DESC(T0)),
    // decide_done
    inst!(jalr ZERO, 0(RA)),
];

/// Emits copies, clearing and deciding.
pub(crate) fn emit_copies(asm: &mut Assembler) -> Result<Ranges, AsmNo> {
    let copy = routine(asm, &COPY)?;
    asm.emit_all(&COPY_DECIDED)?;
    asm.emit_all(&COPY_DOWN)?;
    asm.emit_all(&MOVE)?;
    let clear = routine(asm, &CLEAR)?;
    let decide = routine(asm, &DECIDE)?;
    Ok(Ranges {
        copy,
        clear,
        decide,
    })
}
