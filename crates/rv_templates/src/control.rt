//! Jumps, calls, and the starts and ends of functions.

use crate::pieces::{call_runtime, constant, fill, small, spill};
use crate::site::Site;
use rv_asm::{AsmNo, Assembler, Label, inst};
use rv_isa::{Inst, registers};

/// The value of the last word comes to T0.
const TESTED: Inst = inst!(addi T0, A0, 0);

/// A jump that stands behind is left out where T0 is not 0.
const UNLESS_ZERO: Inst = inst!(bne T0, ZERO, 12);

/// A jump that stands behind is left out where the value of the last word is not T0.
const UNLESS_EQUAL: Inst = inst!(bne A0, T0, 12);

/// Goes on at a label.
pub fn jump(asm: &mut Assembler, to: Label) -> Result<(), AsmNo> {
    asm.jump(to, registers::ZERO)
}

/// Takes a word, and goes on at a label where its value is 0.
pub fn jump_zero(asm: &mut Assembler, site: &Site, height: u8, to: Label) -> Result<(), AsmNo> {
    asm.emit(TESTED)?;
    asm.emit_all(&fill(site, height))?;
    asm.emit(UNLESS_ZERO)?;
    jump(asm, to)
}

/// Goes on at a label where the last word has this value.
pub fn jump_case(asm: &mut Assembler, value: u32, to: Label) -> Result<(), AsmNo> {
    asm.emit_all(&constant(registers::T0, value))?;
    asm.emit(UNLESS_EQUAL)?;
    jump(asm, to)
}

/// S0 moves by twice as many bytes.
fn move_frame(by: i32) -> [Inst; 2] {
    let (rd, rs1) = (registers::S0, registers::S0);
    [
        Inst::Addi { rd, rs1, imm: by },
        Inst::Addi { rd, rs1, imm: by },
    ]
}

/// Calls the word that has so many pending words below it, with the words above it as its arguments. The callee's frame begins at the
/// called word, so that they are its first slots.
pub fn call(
    asm: &mut Assembler,
    site: &Site,
    height: u8,
    below: u8,
    arguments: u8,
) -> Result<(), AsmNo> {
    let half = site.frame.callee(below) / 2;
    asm.emit_all(&spill(site, height))?;
    asm.emit_all(&move_frame(half))?;
    asm.emit(small(registers::A2, i32::from(arguments)))?;
    call_runtime(asm, site.entries.calls.call)?;
    asm.emit_all(&move_frame(half.wrapping_neg()))
}

/// Gives the last word to the caller, and ends the activation with its blocks.
pub fn leave(asm: &mut Assembler, site: &Site) -> Result<(), AsmNo> {
    let blocks = i32::from(site.blocks) + site.extra_blocks();
    asm.emit(small(registers::A2, blocks))?;
    jump(asm, site.entries.calls.leave)
}

/// The start of a function with so many parameters, before its entry blocks.
pub fn enter(asm: &mut Assembler, site: &Site, parameters: u8) -> Result<(), AsmNo> {
    let calls = site.entries.calls;
    asm.emit(small(registers::A3, i32::from(parameters)))?;
    asm.emit(small(registers::A4, i32::from(site.frame.slots)))?;
    let routine = if site.is_variadic {
        calls.enter_variadic
    } else {
        calls.enter
    };
    call_runtime(asm, routine)
}

/// Makes an entry block of this size and shape.
pub fn make_entry(
    asm: &mut Assembler,
    site: &Site,
    size: u32,
    descriptor: u32,
) -> Result<(), AsmNo> {
    asm.emit_all(&constant(registers::A2, size))?;
    asm.emit_all(&constant(registers::A3, descriptor))?;
    call_runtime(asm, site.entries.blocks.make_block)
}
