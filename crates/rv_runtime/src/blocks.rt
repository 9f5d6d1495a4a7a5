//! The allocator. New cells are taken downward from the end of the region, and are zero already.

use crate::entries::Blocks;
use crate::layout::{BASE, BOTTOM, CELL, COUNT, DESC, FREE_LISTS, MAKERS, NEXT_BASE, SIZE};
use crate::routine::routine;
use rv_asm::{AsmNo, Assembler, inst};
use rv_isa::Inst;

/// Makes a block of size A2 with the descriptor A3 and the maker A4: first the class of its cell, T2, and the place of the
/// head of its free list, T3. The new block's address is A0, A1, or 0, 0 where it does not fit.
const MAKE: [Inst; 11] = [
    inst!(lui T0, 0x10000),
    inst!(bltu T0, A2, 208), // make_full
    inst!(addi T1, A2, 3),
    inst!(andi T1, T1, -4),
    inst!(add T1, T1, T1),
    inst!(addi T2, ZERO, 16),
    inst!(addi T3, S2, FREE_LISTS),
    inst!(bgeu T2, T1, 16), // make_found
    // make_class
    inst!(slli T2, T2, 1),
    inst!(addi T3, T3, 4),
    inst!(bltu T2, T1, -8), // make_class
];

/// The rest of `MAKE`: whether the virtual bases and the storage suffice, and a new cell.
const MAKE_FOUND: [Inst; 21] = [
    inst!(lw T4, NEXT_BASE(S2)),
    inst!(addi T5, A2, 15),
    inst!(andi T5, T5, -16),
    inst!(addi T5, T5, 16),
    inst!(lui A0, 0xffff0),
    inst!(sub A0, A0, T4),
    inst!(bltu A0, T5, 144), // make_full
    inst!(add T5, T5, T4),
    inst!(lw A1, COUNT(S2)),
    inst!(addi A1, A1, 1),
    inst!(slli A5, A1, 4),
    inst!(add A5, A5, S1),
    inst!(lw A6, BOTTOM(S2)),
    inst!(addi A7, A5, 16),
    inst!(lw A0, 0(T3)),
    inst!(bne A0, ZERO, 24), // make_reuse
    inst!(add A7, A7, T2),
    inst!(bltu A6, A7, 100), // make_full
    inst!(sub A0, A6, T2),
    inst!(sw A0, BOTTOM(S2)),
    inst!(jal ZERO, 44), // make_place
];

/// The rest of `MAKE`: a cell that is used again is cleared; then the header, the counts and the maker.
const MAKE_REUSE: [Inst; 21] = [
    inst!(bltu A6, A7, 84), // make_full
    inst!(lw A7, 0(A0)),
    inst!(sw A7, 0(T3)),
    inst!(add T1, T1, A0),
    inst!(addi A7, A0, 0),
    inst!(bgeu A7, T1, 20), // make_place
    // make_clear
    inst!(sw ZERO, 0(A7)),
    inst!(sw ZERO, 4(A7)),
    inst!(addi A7, A7, 8),
    inst!(bltu A7, T1, -12), // make_clear
    // make_place
    inst!(sw A3, DESC(A5)),
    inst!(sw A2, SIZE(A5)),
    inst!(sw T4, BASE(A5)),
    inst!(sw A0, CELL(A5)),
    inst!(sw A1, COUNT(S2)),
    inst!(sw T5, NEXT_BASE(S2)),
    inst!(lw A7, MAKERS(S2)),
    inst!(add A7, A7, A1),
    inst!(sb A4, 0(A7)),
    inst!(addi A0, T4, 0),
    inst!(jalr ZERO, 0(GP)),
];

/// The end of `MAKE` where the block does not fit.
const MAKE_FULL: [Inst; 3] = [
    inst!(addi A0, ZERO, 0),
    inst!(addi A1, ZERO, 0),
    inst!(jalr ZERO, 0(GP)),
];

/// Ends the life of the object A3. Its cell goes to the front of its free list.
const END_BLOCK: [Inst; 19] = [
    inst!(slli T0, A3, 4),
    inst!(add T0, T0, S1),
    inst!(lw T1, SIZE(T0)),
    inst!(addi T1, T1, 3),
    inst!(andi T1, T1, -4),
    inst!(add T1, T1, T1),
    inst!(addi T2, ZERO, 16),
    inst!(addi T3, S2, FREE_LISTS),
    inst!(bgeu T2, T1, 16), // end_found
    // end_class
    inst!(slli T2, T2, 1),
    inst!(addi T3, T3, 4),
    inst!(bltu T2, T1, -8), // end_class
    // end_found
    inst!(lw T4, CELL(T0)),
    inst!(lw T5, 0(T3)),
    inst!(sw T5, 0(T4)),
    inst!(sw T4, 0(T3)),
    inst!(sw ZERO, DESC(T0)),
    inst!(sw ZERO, CELL(T0)),
    inst!(jalr ZERO, 0(GP)),
];

/// Makes an entry block of size A2 with the shape at A3.
const MAKE_BLOCK: [Inst; 5] = [
    inst!(add A3, A3, S2),
    inst!(addi A4, ZERO, 0),
    inst!(jal GP, -308), // make
    inst!(beq A1, ZERO, 592), // stop_blocks
    inst!(jalr ZERO, 0(RA)),
];

/// Emits the allocator.
pub(crate) fn emit_blocks(asm: &mut Assembler) -> Result<Blocks, AsmNo> {
    asm.emit_all(&MAKE)?;
    asm.emit_all(&MAKE_FOUND)?;
    asm.emit_all(&MAKE_REUSE)?;
    asm.emit_all(&MAKE_FULL)?;
    let end_block = routine(asm, &END_BLOCK)?;
    let make_block = routine(asm, &MAKE_BLOCK)?;
    Ok(Blocks {
        make_block,
        end_block,
    })
}
