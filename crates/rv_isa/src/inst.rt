//! Instructions as values.

ghost use Rattle.std.specs.Prelude.{◌≡◌, ◌↔◌, IsTrue};
ghost use Rattle.rv_isa.specs.Encoding.{IsBranchOffset, IsEven, IsJumpOffset, IsShiftCount, IsSigned12, IsUnsigned20, IsValid};

use crate::reg::Reg;

/// An instruction. Its immediate is the number that the assembler's line has: 0 to 2^20 - 1 in LUI and AUIPC, an even
/// offset in bytes in JAL and the branches, 0 to 31 in the shifts, and else -2048 to 2047.
#[derive(Clone, Copy, Debug, PartialEq, Eq)]
pub enum Inst {
    /// `rd` becomes `imm` shifted left by 12 bits.
    Lui { rd: Reg, imm: i32 },
    /// `rd` becomes the sum of the pc and `imm` shifted left by 12 bits.
    Auipc { rd: Reg, imm: i32 },
    /// Jumps to the sum of the pc and `imm`; `rd` becomes the address of the instruction after this one.
    Jal { rd: Reg, imm: i32 },
    /// Jumps to the sum of `rs1` and `imm`, with its lowest bit cleared; `rd` becomes the address of the instruction
    /// after this one.
    Jalr { rd: Reg, rs1: Reg, imm: i32 },
    /// Jumps to the sum of the pc and `imm` if `rs1` equals `rs2`.
    Beq { rs1: Reg, rs2: Reg, imm: i32 },
    /// Jumps to the sum of the pc and `imm` if `rs1` differs from `rs2`.
    Bne { rs1: Reg, rs2: Reg, imm: i32 },
    /// Jumps to the sum of the pc and `imm` if `rs1` is less than `rs2`, both signed.
    Blt { rs1: Reg, rs2: Reg, imm: i32 },
    /// Jumps to the sum of the pc and `imm` if `rs1` is at least `rs2`, both signed.
    Bge { rs1: Reg, rs2: Reg, imm: i32 },
    /// Jumps to the sum of the pc and `imm` if `rs1` is less than `rs2`, both unsigned.
    Bltu { rs1: Reg, rs2: Reg, imm: i32 },
    /// Jumps to the sum of the pc and `imm` if `rs1` is at least `rs2`, both unsigned.
    Bgeu { rs1: Reg, rs2: Reg, imm: i32 },
    /// `rd` becomes the byte at the sum of `rs1` and `imm`, sign-extended.
    Lb { rd: Reg, rs1: Reg, imm: i32 },
    /// `rd` becomes the two bytes at the sum of `rs1` and `imm`, sign-extended.
    Lh { rd: Reg, rs1: Reg, imm: i32 },
    /// `rd` becomes the four bytes at the sum of `rs1` and `imm`.
    Lw { rd: Reg, rs1: Reg, imm: i32 },
    /// `rd` becomes the byte at the sum of `rs1` and `imm`, zero-extended.
    Lbu { rd: Reg, rs1: Reg, imm: i32 },
    /// `rd` becomes the two bytes at the sum of `rs1` and `imm`, zero-extended.
    Lhu { rd: Reg, rs1: Reg, imm: i32 },
    /// The byte at the sum of `rs1` and `imm` becomes the low byte of `rs2`.
    Sb { rs1: Reg, rs2: Reg, imm: i32 },
    /// The two bytes at the sum of `rs1` and `imm` become the low two of `rs2`.
    Sh { rs1: Reg, rs2: Reg, imm: i32 },
    /// The four bytes at the sum of `rs1` and `imm` become those of `rs2`.
    Sw { rs1: Reg, rs2: Reg, imm: i32 },
    /// `rd` becomes the sum of `rs1` and `imm`. With x0 twice and 1 it is the mark.
    Addi { rd: Reg, rs1: Reg, imm: i32 },
    /// `rd` becomes 1 if `rs1` is less than `imm`, both signed, and else 0.
    Slti { rd: Reg, rs1: Reg, imm: i32 },
    /// `rd` becomes 1 if `rs1` is less than `imm` sign-extended, both unsigned, and else 0.
    Sltiu { rd: Reg, rs1: Reg, imm: i32 },
    /// `rd` becomes the bitwise exclusive or of `rs1` and `imm`.
    Xori { rd: Reg, rs1: Reg, imm: i32 },
    /// `rd` becomes the bitwise or of `rs1` and `imm`.
    Ori { rd: Reg, rs1: Reg, imm: i32 },
    /// `rd` becomes the bitwise and of `rs1` and `imm`.
    Andi { rd: Reg, rs1: Reg, imm: i32 },
    /// `rd` becomes `rs1` shifted left by `imm` bits.
    Slli { rd: Reg, rs1: Reg, imm: i32 },
    /// `rd` becomes `rs1` shifted right by `imm` bits, with zeros from above.
    Srli { rd: Reg, rs1: Reg, imm: i32 },
    /// `rd` becomes `rs1` shifted right by `imm` bits, with its sign from above.
    Srai { rd: Reg, rs1: Reg, imm: i32 },
    /// `rd` becomes the sum of `rs1` and `rs2`.
    Add { rd: Reg, rs1: Reg, rs2: Reg },
    /// `rd` becomes the difference of `rs1` and `rs2`.
    Sub { rd: Reg, rs1: Reg, rs2: Reg },
    /// `rd` becomes `rs1` shifted left by the low five bits of `rs2`.
    Sll { rd: Reg, rs1: Reg, rs2: Reg },
    /// `rd` becomes 1 if `rs1` is less than `rs2`, both signed, and else 0.
    Slt { rd: Reg, rs1: Reg, rs2: Reg },
    /// `rd` becomes 1 if `rs1` is less than `rs2`, both unsigned, and else 0.
    Sltu { rd: Reg, rs1: Reg, rs2: Reg },
    /// `rd` becomes the bitwise exclusive or of `rs1` and `rs2`.
    Xor { rd: Reg, rs1: Reg, rs2: Reg },
    /// `rd` becomes `rs1` shifted right by the low five bits of `rs2`, with zeros from above.
    Srl { rd: Reg, rs1: Reg, rs2: Reg },
    /// `rd` becomes `rs1` shifted right by the low five bits of `rs2`, with its sign from above.
    Sra { rd: Reg, rs1: Reg, rs2: Reg },
    /// `rd` becomes the bitwise or of `rs1` and `rs2`.
    Or { rd: Reg, rs1: Reg, rs2: Reg },
    /// `rd` becomes the bitwise and of `rs1` and `rs2`.
    And { rd: Reg, rs1: Reg, rs2: Reg },
    /// Orders accesses to memory; where only one hart runs, it does nothing. `imm` says which accesses.
    Fence { rd: Reg, rs1: Reg, imm: i32 },
    /// Asks the environment for the service in x17.
    Ecall,
    /// Hands over to a debugging environment.
    Ebreak,
    /// `rd` becomes the low 32 bits of the product of `rs1` and `rs2`.
    Mul { rd: Reg, rs1: Reg, rs2: Reg },
    /// `rd` becomes the high 32 bits of the product of `rs1` and `rs2`, both signed.
    Mulh { rd: Reg, rs1: Reg, rs2: Reg },
    /// `rd` becomes the high 32 bits of the product of `rs1`, signed, and `rs2`, unsigned.
    Mulhsu { rd: Reg, rs1: Reg, rs2: Reg },
    /// `rd` becomes the high 32 bits of the product of `rs1` and `rs2`, both unsigned.
    Mulhu { rd: Reg, rs1: Reg, rs2: Reg },
    /// `rd` becomes the signed quotient of `rs1` and `rs2`, rounded towards 0; -1 where `rs2` is 0, `rs1` on overflow.
    Div { rd: Reg, rs1: Reg, rs2: Reg },
    /// `rd` becomes the unsigned quotient of `rs1` and `rs2`; all ones where `rs2` is 0.
    Divu { rd: Reg, rs1: Reg, rs2: Reg },
    /// `rd` becomes the signed remainder of `rs1` and `rs2`; `rs1` where `rs2` is 0, 0 on overflow.
    Rem { rd: Reg, rs1: Reg, rs2: Reg },
    /// `rd` becomes the unsigned remainder of `rs1` and `rs2`; `rs1` where `rs2` is 0.
    Remu { rd: Reg, rs1: Reg, rs2: Reg },
}

/// Whether a number is in the range of formats I and S.
fn is_signed12(imm: i32) -> bool
    ensures { IsTrue result ↔ IsSigned12 imm }
{
    -2048 <= imm && imm < 2048
}

/// Whether a number is one of bits to shift by.
fn is_shift_count(imm: i32) -> bool
    ensures { IsTrue result ↔ IsShiftCount imm }
{
    0 <= imm && imm < 32
}

/// Whether a number is in the range of format U.
fn is_unsigned20(imm: i32) -> bool
    ensures { IsTrue result ↔ IsUnsigned20 imm }
{
    0 <= imm && imm < 1_048_576
}

/// Whether a number is a multiple of 2.
fn is_even(imm: i32) -> bool
    ensures { IsTrue result ↔ IsEven imm }
{
    imm.cast_unsigned() % 2 == 0
}

/// Whether a number is in the range of format B, and even.
fn is_branch_offset(imm: i32) -> bool
    ensures { IsTrue result ↔ IsBranchOffset imm }
{
    -4096 <= imm && imm < 4096 && is_even(imm)
}

/// Whether a number is in the range of format J, and even.
fn is_jump_offset(imm: i32) -> bool
    ensures { IsTrue result ↔ IsJumpOffset imm }
{
    -1_048_576 <= imm && imm < 1_048_576 && is_even(imm)
}

impl Inst {
    /// Whether the immediate is in the range of its format, and even in formats B and J.
    pub fn is_valid(&self) -> bool
        ensures { IsTrue result ↔ IsValid self.now }
    {
        match *self {
            Inst::Add { .. }
            | Inst::Sub { .. }
            | Inst::Sll { .. }
            | Inst::Slt { .. }
            | Inst::Sltu { .. }
            | Inst::Xor { .. }
            | Inst::Srl { .. }
            | Inst::Sra { .. }
            | Inst::Or { .. }
            | Inst::And { .. }
            | Inst::Ecall
            | Inst::Ebreak
            | Inst::Mul { .. }
            | Inst::Mulh { .. }
            | Inst::Mulhsu { .. }
            | Inst::Mulhu { .. }
            | Inst::Div { .. }
            | Inst::Divu { .. }
            | Inst::Rem { .. }
            | Inst::Remu { .. } => true,
            Inst::Jalr { imm, .. }
            | Inst::Lb { imm, .. }
            | Inst::Lh { imm, .. }
            | Inst::Lw { imm, .. }
            | Inst::Lbu { imm, .. }
            | Inst::Lhu { imm, .. }
            | Inst::Sb { imm, .. }
            | Inst::Sh { imm, .. }
            | Inst::Sw { imm, .. }
            | Inst::Addi { imm, .. }
            | Inst::Slti { imm, .. }
            | Inst::Sltiu { imm, .. }
            | Inst::Xori { imm, .. }
            | Inst::Ori { imm, .. }
            | Inst::Andi { imm, .. }
            | Inst::Fence { imm, .. } => is_signed12(imm),
            Inst::Slli { imm, .. } | Inst::Srli { imm, .. } | Inst::Srai { imm, .. } =>
                is_shift_count(imm),
            Inst::Beq { imm, .. }
            | Inst::Bne { imm, .. }
            | Inst::Blt { imm, .. }
            | Inst::Bge { imm, .. }
            | Inst::Bltu { imm, .. }
            | Inst::Bgeu { imm, .. } => is_branch_offset(imm),
            Inst::Lui { imm, .. } | Inst::Auipc { imm, .. } => is_unsigned20(imm),
            Inst::Jal { imm, .. } => is_jump_offset(imm),
        }
    }
}
