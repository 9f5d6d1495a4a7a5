//! The fields of a word, and the immediates that they make.

ghost use Rattle.std.specs.Prelude.{◌≡◌, ◌<◌, ◌^◌, pos};
ghost use Rattle.rv_isa.specs.Fields.{b_imm_of, field, funct3_of, funct7_of, i_imm_of, j_imm_of, opcode_of, rd_of, rs1_of, rs2_of, s_imm_of, shift_imm_of, sign_of, u_imm_of};

use crate::reg::Reg;

/// The field of `width` bits whose lowest is the bit `from`.
pub fn field(code: u32, from: u32, width: u32) -> u32
    requires { (from < 32) × (width < 32) }
    ensures same { result ≡ field code from width }
    ensures in_range { result < 2 ^ width }
{
    code >> from & (1 << width) - 1
}

/// The register whose number is the five bits from the bit `from` up.
fn register_at(code: u32, from: u32) -> Reg
    requires { from < 32 }
    ensures { result ≡ field code from 5 }
{
    Reg::new(field(code, from, 5) as u8)
}

/// The bits that say which group of instructions the word is of.
pub fn opcode(code: u32) -> u32
    ensures { result ≡ opcode_of code }
{
    field(code, 0, 7)
}

/// The register that the word writes.
pub fn rd(code: u32) -> Reg
    ensures { result ≡ rd_of code }
{
    register_at(code, 7)
}

/// The first register that the word reads.
pub fn rs1(code: u32) -> Reg
    ensures { result ≡ rs1_of code }
{
    register_at(code, 15)
}

/// The second register that the word reads.
pub fn rs2(code: u32) -> Reg
    ensures { result ≡ rs2_of code }
{
    register_at(code, 20)
}

/// The bits that tell the instructions of an opcode apart.
pub fn funct3(code: u32) -> u32
    ensures { result ≡ funct3_of code }
{
    field(code, 12, 3)
}

/// The bits that tell the instructions of format R apart further.
pub fn funct7(code: u32) -> u32
    ensures { result ≡ funct7_of code }
{
    field(code, 25, 7)
}

/// 1 where the immediate is negative, else 0.
fn sign(code: u32) -> i32
    ensures { result ≡ pos (sign_of code) }
{
    field(code, 31, 1) as i32
}

/// The immediate of format I.
pub fn i_imm(code: u32) -> i32
    ensures { result ≡ i_imm_of code }
{
    field(code, 20, 11) as i32 - 2048 * sign(code)
}

/// The count of a shift by a constant.
pub fn shift_imm(code: u32) -> i32
    ensures { result ≡ shift_imm_of code }
{
    field(code, 20, 5) as i32
}

/// The immediate of format S, whose low five bits stand apart.
pub fn s_imm(code: u32) -> i32
    ensures { result ≡ s_imm_of code }
{
    let low = field(code, 7, 5) | field(code, 25, 6) << 5;
    low as i32 - 2048 * sign(code)
}

/// The immediate of format B, an even offset whose bit 11 stands at bit 7.
pub fn b_imm(code: u32) -> i32
    ensures { result ≡ b_imm_of code }
{
    let low = field(code, 8, 4) << 1 | field(code, 25, 6) << 5 | field(code, 7, 1) << 11;
    low as i32 - 4096 * sign(code)
}

/// The immediate of format U.
pub fn u_imm(code: u32) -> i32
    ensures { result ≡ u_imm_of code }
{
    field(code, 12, 20) as i32
}

/// The immediate of format J, an even offset whose bit 11 stands at bit 20.
pub fn j_imm(code: u32) -> i32
    ensures { result ≡ j_imm_of code }
{
    let low = field(code, 21, 10) << 1 | field(code, 20, 1) << 11 | field(code, 12, 8) << 12;
    low as i32 - 1_048_576 * sign(code)
}
