//! Pieces that many operations share.

use crate::site::Site;
use rv_asm::{AsmNo, Assembler, Label, high_part, inst, low_part};
use rv_isa::{Inst, Reg, registers};

/// A value has no base: A1 becomes 0.
pub(crate) const NO_BASE: Inst = inst!(addi A1, ZERO, 0);

/// A register becomes a number.
pub fn constant(rd: Reg, value: u32) -> [Inst; 2] {
    [
        Inst::Lui {
            rd,
            imm: high_part(value),
        },
        Inst::Addi {
            rd,
            rs1: rd,
            imm: low_part(value),
        },
    ]
}

/// A word goes to a place in the frame.
pub(crate) fn to_frame(place: i32) -> [Inst; 2] {
    [
        Inst::Sw {
            rs1: registers::S0,
            rs2: registers::A0,
            imm: place,
        },
        Inst::Sw {
            rs1: registers::S0,
            rs2: registers::A1,
            imm: place.wrapping_add(4),
        },
    ]
}

/// The word at a place in the frame comes to two registers.
pub(crate) fn from_frame(place: i32, value: Reg, block: Reg) -> [Inst; 2] {
    [
        Inst::Lw {
            rd: value,
            rs1: registers::S0,
            imm: place,
        },
        Inst::Lw {
            rd: block,
            rs1: registers::S0,
            imm: place.wrapping_add(4),
        },
    ]
}

/// The last pending word goes to its place, so that another can be pushed.
pub(crate) fn spill(site: &Site, height: u8) -> [Inst; 2] {
    to_frame(site.frame.top(height))
}

/// The word below the last one comes to A0, A1, where it is the last one then.
pub(crate) fn fill(site: &Site, height: u8) -> [Inst; 2] {
    from_frame(site.frame.second(height), registers::A0, registers::A1)
}

/// The word below the last one comes to A2, A3.
pub(crate) fn second(site: &Site, height: u8) -> [Inst; 2] {
    from_frame(site.frame.second(height), registers::A2, registers::A3)
}

/// The value of the word below the last one comes to A2.
pub(crate) fn second_value(site: &Site, height: u8) -> Inst {
    Inst::Lw {
        rd: registers::A2,
        rs1: registers::S0,
        imm: site.frame.second(height),
    }
}

/// A0 is shifted left and back, so that its low bits are extended by their sign or by zeros.
pub(crate) fn extended(bits: i32, is_signed: bool) -> [Inst; 2] {
    let imm = 32i32.wrapping_sub(bits);
    let (rd, rs1) = (registers::A0, registers::A0);
    let up = Inst::Slli { rd, rs1, imm };
    if is_signed {
        [up, Inst::Srai { rd, rs1, imm }]
    } else {
        [up, Inst::Srli { rd, rs1, imm }]
    }
}

/// A register becomes a number from -2048 to 2047.
pub(crate) fn small(rd: Reg, imm: i32) -> Inst {
    Inst::Addi {
        rd,
        rs1: registers::ZERO,
        imm,
    }
}

/// A call of a routine of the runtime.
pub fn call_runtime(asm: &mut Assembler, routine: Label) -> Result<(), AsmNo> {
    asm.jump(routine, registers::RA)
}
