//! Operations that move words.

use crate::pieces::{NO_BASE, constant, fill, from_frame, second, spill, to_frame};
use crate::site::Site;
use fsc_base::Word;
use rv_asm::{AsmNo, Assembler, inst};
use rv_isa::{Inst, registers};
use rv_runtime::layout::{BASE, FIRST_BLOCK};

/// The number of the activation's first block comes to A1.
const FIRST: Inst = inst!(lw A1, FIRST_BLOCK(S0));

/// The virtual base of block A1 comes to A0.
const BASE_OF: [Inst; 3] = [
    inst!(slli T0, A1, 4),
    inst!(add T0, T0, S1),
    inst!(lw A0, BASE(T0)),
];

/// The word A2, A3 becomes the last one.
pub(crate) const MOVED: [Inst; 2] = [inst!(addi A0, A2, 0), inst!(addi A1, A3, 0)];

/// Pushes a number.
pub fn number(asm: &mut Assembler, site: &Site, height: u8, value: u32) -> Result<(), AsmNo> {
    asm.emit_all(&spill(site, height))?;
    asm.emit_all(&constant(registers::A0, value))?;
    asm.emit(NO_BASE)
}

/// Pushes an address.
pub fn address(asm: &mut Assembler, site: &Site, height: u8, word: Word) -> Result<(), AsmNo> {
    asm.emit_all(&spill(site, height))?;
    asm.emit_all(&constant(registers::A0, word.value))?;
    asm.emit_all(&constant(registers::A1, word.block))
}

/// Pushes the word in a slot.
pub fn slot_get(asm: &mut Assembler, site: &Site, height: u8, slot: u8) -> Result<(), AsmNo> {
    asm.emit_all(&spill(site, height))?;
    asm.emit_all(&from_frame(site.frame.slot(slot), registers::A0, registers::A1))
}

/// Puts the last word into a slot, and keeps it.
pub fn slot_set(asm: &mut Assembler, site: &Site, slot: u8) -> Result<(), AsmNo> {
    asm.emit_all(&to_frame(site.frame.slot(slot)))
}

/// Pushes the address of an entry block.
pub fn entry(asm: &mut Assembler, site: &Site, height: u8, entry: u8) -> Result<(), AsmNo> {
    asm.emit_all(&spill(site, height))?;
    asm.emit(FIRST)?;
    asm.emit(Inst::Addi {
        rd: registers::A1,
        rs1: registers::A1,
        imm: i32::from(entry) + site.extra_blocks(),
    })?;
    asm.emit_all(&BASE_OF)
}

/// Pushes the last word again.
pub fn duplicate(asm: &mut Assembler, site: &Site, height: u8) -> Result<(), AsmNo> {
    asm.emit_all(&spill(site, height))
}

/// Exchanges the last two words.
pub fn swap(asm: &mut Assembler, site: &Site, height: u8) -> Result<(), AsmNo> {
    asm.emit_all(&second(site, height))?;
    asm.emit_all(&to_frame(site.frame.second(height)))?;
    asm.emit_all(&MOVED)
}

/// Takes a word.
pub fn drop_word(asm: &mut Assembler, site: &Site, height: u8) -> Result<(), AsmNo> {
    asm.emit_all(&fill(site, height))
}
