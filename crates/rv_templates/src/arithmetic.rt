//! Operators.

use crate::control::jump;
use crate::pieces::{NO_BASE, extended, second, second_value};
use crate::site::Site;
use c_ops::{Binary, Unary};
use fsc_base::Width;
use rv_asm::{AsmNo, Assembler, inst};
use rv_isa::Inst;

/// The one base of two, where exactly one operand has one, else 0: the sum of the blocks, times the number of those that are 0.
const ONE_BASE: [Inst; 5] = [
    inst!(sltiu T0, A1, 1),
    inst!(sltiu T1, A3, 1),
    inst!(add T0, T0, T1),
    inst!(add A1, A1, A3),
    inst!(mul A1, A1, T0),
];

/// The base of the left operand, where the right one has none, else 0.
const LEFT_BASE: [Inst; 2] = [inst!(sltiu T0, A1, 1), inst!(mul A1, A3, T0)];

/// A jump that stands behind is left out where the divisor is not 0.
const UNLESS_ZERO: Inst = inst!(bne A0, ZERO, 12);

const EQUAL: [Inst; 2] = [inst!(sub A0, A2, A0), inst!(sltiu A0, A0, 1)];

const UNEQUAL: [Inst; 2] = [inst!(sub A0, A2, A0), inst!(sltu A0, ZERO, A0)];

const NOT_GREATER: [Inst; 2] = [inst!(slt A0, A0, A2), inst!(xori A0, A0, 1)];

const NOT_GREATER_UNSIGNED: [Inst; 2] = [inst!(sltu A0, A0, A2), inst!(xori A0, A0, 1)];

/// An operator whose result has the one base of its operands, by its instruction on A2 and A0.
fn with_one_base(asm: &mut Assembler, site: &Site, height: u8, inst: Inst) -> Result<(), AsmNo> {
    asm.emit_all(&second(site, height))?;
    asm.emit(inst)?;
    asm.emit_all(&ONE_BASE)
}

/// The difference, which has the left operand's base where the right one has none.
fn subtract(asm: &mut Assembler, site: &Site, height: u8) -> Result<(), AsmNo> {
    asm.emit_all(&second(site, height))?;
    asm.emit(inst!(sub A0, A2, A0))?;
    asm.emit_all(&LEFT_BASE)
}

/// An operator whose result has no base, by its instructions on A2 and A0.
fn without_base(asm: &mut Assembler, site: &Site, height: u8, insts: &[Inst]) -> Result<(), AsmNo> {
    asm.emit(second_value(site, height))?;
    asm.emit_all(insts)?;
    asm.emit(NO_BASE)
}

/// A division, which stops the run where the divisor is 0.
fn divide(asm: &mut Assembler, site: &Site, height: u8, inst: Inst) -> Result<(), AsmNo> {
    asm.emit(UNLESS_ZERO)?;
    jump(asm, site.entries.stops.divide)?;
    without_base(asm, site, height, &[inst])
}

/// Takes the right operand and the left one below it, and pushes the result.
pub fn binary(asm: &mut Assembler, site: &Site, height: u8, operator: Binary) -> Result<(), AsmNo> {
    match operator {
        Binary::Add => with_one_base(asm, site, height, inst!(add A0, A2, A0)),
        Binary::Subtract => subtract(asm, site, height),
        Binary::Multiply => without_base(asm, site, height, &[inst!(mul A0, A2, A0)]),
        Binary::Divide => divide(asm, site, height, inst!(div A0, A2, A0)),
        Binary::DivideUnsigned => divide(asm, site, height, inst!(divu A0, A2, A0)),
        Binary::Remainder => divide(asm, site, height, inst!(rem A0, A2, A0)),
        Binary::RemainderUnsigned => divide(asm, site, height, inst!(remu A0, A2, A0)),
        Binary::And => with_one_base(asm, site, height, inst!(and A0, A2, A0)),
        Binary::Or => with_one_base(asm, site, height, inst!(or A0, A2, A0)),
        Binary::Xor => with_one_base(asm, site, height, inst!(xor A0, A2, A0)),
        Binary::ShiftLeft => without_base(asm, site, height, &[inst!(sll A0, A2, A0)]),
        Binary::ShiftRight => without_base(asm, site, height, &[inst!(sra A0, A2, A0)]),
        Binary::ShiftRightUnsigned => without_base(asm, site, height, &[inst!(srl A0, A2, A0)]),
        Binary::Equal => without_base(asm, site, height, &EQUAL),
        Binary::Unequal => without_base(asm, site, height, &UNEQUAL),
        Binary::Less => without_base(asm, site, height, &[inst!(slt A0, A2, A0)]),
        Binary::LessUnsigned => without_base(asm, site, height, &[inst!(sltu A0, A2, A0)]),
        Binary::NotGreater => without_base(asm, site, height, &NOT_GREATER),
        Binary::NotGreaterUnsigned => without_base(asm, site, height, &NOT_GREATER_UNSIGNED),
    }
}

/// Takes an operand and pushes the result.
pub fn unary(asm: &mut Assembler, operator: Unary) -> Result<(), AsmNo> {
    asm.emit(match operator {
        Unary::Minus => inst!(sub A0, ZERO, A0),
        Unary::Complement => inst!(xori A0, A0, -1),
        Unary::Not => inst!(sltiu A0, A0, 1),
    })?;
    asm.emit(NO_BASE)
}

/// The last word becomes its low bits, extended by their sign or by zeros, without a base.
fn narrow_to(asm: &mut Assembler, bits: i32, is_signed: bool) -> Result<(), AsmNo> {
    asm.emit_all(&extended(bits, is_signed))?;
    asm.emit(NO_BASE)
}

/// Converts the last word to a type of this width.
pub fn narrow(asm: &mut Assembler, width: Width, is_signed: bool) -> Result<(), AsmNo> {
    match width {
        Width::One => narrow_to(asm, 8, is_signed),
        Width::Two => narrow_to(asm, 16, is_signed),
        Width::Four => Ok(()),
    }
}
