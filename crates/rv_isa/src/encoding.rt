//! From instructions to words.

ghost use Rattle.std.specs.Prelude.{◌≡◌, ◌<◌, ◌^◌};
ghost use Rattle.rv_isa.specs.Formats.{BType, IType, JType, RType, SType, ShiftType, UType, word};
ghost use Rattle.rv_isa.specs.Encoding.{IsValid, encoding};

use crate::fields::field;
use crate::inst::Inst;
use crate::opcode;
use crate::reg::Reg;

/// A register's number as a field.
fn bits_of(register: Reg) -> u32
    ensures same { result ≡ register }
    ensures in_range { result < 2 ^ 5 }
{
    u32::from(register.number())
}

/// A word of format R.
fn r_type(funct7: u32, rs2: Reg, rs1: Reg, funct3: u32, rd: Reg, opcode: u32) -> u32
    requires { (funct7 < 2 ^ 7) × (funct3 < 2 ^ 3) × (opcode < 2 ^ 7) }
    ensures { result ≡ word (RType funct7 rs2 rs1 funct3 rd opcode) }
{
    opcode
        | bits_of(rd) << 7
        | funct3 << 12
        | bits_of(rs1) << 15
        | bits_of(rs2) << 20
        | funct7 << 25
}

/// A word of format I.
fn i_type(imm: i32, rs1: Reg, funct3: u32, rd: Reg, opcode: u32) -> u32
    requires { (funct3 < 2 ^ 3) × (opcode < 2 ^ 7) }
    ensures { result ≡ word (IType imm rs1 funct3 rd opcode) }
{
    let imm = imm.cast_unsigned();
    opcode | bits_of(rd) << 7 | funct3 << 12 | bits_of(rs1) << 15 | field(imm, 0, 12) << 20
}

/// A word of format I that shifts by a constant.
fn shift_type(funct7: u32, imm: i32, rs1: Reg, funct3: u32, rd: Reg, opcode: u32) -> u32
    requires { (funct7 < 2 ^ 7) × (funct3 < 2 ^ 3) × (opcode < 2 ^ 7) }
    ensures { result ≡ word (ShiftType funct7 imm rs1 funct3 rd opcode) }
{
    let imm = imm.cast_unsigned();
    opcode
        | bits_of(rd) << 7
        | funct3 << 12
        | bits_of(rs1) << 15
        | field(imm, 0, 5) << 20
        | funct7 << 25
}

/// A word of format S.
fn s_type(imm: i32, rs2: Reg, rs1: Reg, funct3: u32, opcode: u32) -> u32
    requires { (funct3 < 2 ^ 3) × (opcode < 2 ^ 7) }
    ensures { result ≡ word (SType imm rs2 rs1 funct3 opcode) }
{
    let imm = imm.cast_unsigned();
    opcode
        | field(imm, 0, 5) << 7
        | funct3 << 12
        | bits_of(rs1) << 15
        | bits_of(rs2) << 20
        | field(imm, 5, 7) << 25
}

/// A word of format B.
fn b_type(imm: i32, rs2: Reg, rs1: Reg, funct3: u32, opcode: u32) -> u32
    requires { (funct3 < 2 ^ 3) × (opcode < 2 ^ 7) }
    ensures { result ≡ word (BType imm rs2 rs1 funct3 opcode) }
{
    let imm = imm.cast_unsigned();
    opcode
        | field(imm, 11, 1) << 7
        | field(imm, 1, 4) << 8
        | funct3 << 12
        | bits_of(rs1) << 15
        | bits_of(rs2) << 20
        | field(imm, 5, 6) << 25
        | field(imm, 12, 1) << 31
}

/// A word of format U.
fn u_type(imm: i32, rd: Reg, opcode: u32) -> u32
    requires { opcode < 2 ^ 7 }
    ensures { result ≡ word (UType imm rd opcode) }
{
    opcode | bits_of(rd) << 7 | field(imm.cast_unsigned(), 0, 20) << 12
}

/// A word of format J.
fn j_type(imm: i32, rd: Reg, opcode: u32) -> u32
    requires { opcode < 2 ^ 7 }
    ensures { result ≡ word (JType imm rd opcode) }
{
    let imm = imm.cast_unsigned();
    opcode
        | bits_of(rd) << 7
        | field(imm, 12, 8) << 12
        | field(imm, 11, 1) << 20
        | field(imm, 1, 10) << 21
        | field(imm, 20, 1) << 31
}

/// The word of an instruction, whose immediate is in its format's range: `Inst::is_valid` says whether it is.
#[tactic(auto, unfolding(crate::specs::Encoding::encoding))]
pub fn encode(inst: Inst) -> u32
    requires { IsValid inst }
    ensures { result ≡ encoding inst }
{
    match inst {
        Inst::Lui { rd, imm } => u_type(imm, rd, opcode::LUI),
        Inst::Auipc { rd, imm } => u_type(imm, rd, opcode::AUIPC),
        Inst::Jal { rd, imm } => j_type(imm, rd, opcode::JAL),
        Inst::Jalr { rd, rs1, imm } => i_type(imm, rs1, 0b000, rd, opcode::JALR),
        Inst::Beq { rs1, rs2, imm } => b_type(imm, rs2, rs1, 0b000, opcode::BRANCH),
        Inst::Bne { rs1, rs2, imm } => b_type(imm, rs2, rs1, 0b001, opcode::BRANCH),
        Inst::Blt { rs1, rs2, imm } => b_type(imm, rs2, rs1, 0b100, opcode::BRANCH),
        Inst::Bge { rs1, rs2, imm } => b_type(imm, rs2, rs1, 0b101, opcode::BRANCH),
        Inst::Bltu { rs1, rs2, imm } => b_type(imm, rs2, rs1, 0b110, opcode::BRANCH),
        Inst::Bgeu { rs1, rs2, imm } => b_type(imm, rs2, rs1, 0b111, opcode::BRANCH),
        Inst::Lb { rd, rs1, imm } => i_type(imm, rs1, 0b000, rd, opcode::LOAD),
        Inst::Lh { rd, rs1, imm } => i_type(imm, rs1, 0b001, rd, opcode::LOAD),
        Inst::Lw { rd, rs1, imm } => i_type(imm, rs1, 0b010, rd, opcode::LOAD),
        Inst::Lbu { rd, rs1, imm } => i_type(imm, rs1, 0b100, rd, opcode::LOAD),
        Inst::Lhu { rd, rs1, imm } => i_type(imm, rs1, 0b101, rd, opcode::LOAD),
        Inst::Sb { rs1, rs2, imm } => s_type(imm, rs2, rs1, 0b000, opcode::STORE),
        Inst::Sh { rs1, rs2, imm } => s_type(imm, rs2, rs1, 0b001, opcode::STORE),
        Inst::Sw { rs1, rs2, imm } => s_type(imm, rs2, rs1, 0b010, opcode::STORE),
        Inst::Addi { rd, rs1, imm } => i_type(imm, rs1, 0b000, rd, opcode::OP_IMM),
        Inst::Slti { rd, rs1, imm } => i_type(imm, rs1, 0b010, rd, opcode::OP_IMM),
        Inst::Sltiu { rd, rs1, imm } => i_type(imm, rs1, 0b011, rd, opcode::OP_IMM),
        Inst::Xori { rd, rs1, imm } => i_type(imm, rs1, 0b100, rd, opcode::OP_IMM),
        Inst::Ori { rd, rs1, imm } => i_type(imm, rs1, 0b110, rd, opcode::OP_IMM),
        Inst::Andi { rd, rs1, imm } => i_type(imm, rs1, 0b111, rd, opcode::OP_IMM),
        Inst::Slli { rd, rs1, imm } => shift_type(0b000_0000, imm, rs1, 0b001, rd, opcode::OP_IMM),
        Inst::Srli { rd, rs1, imm } => shift_type(0b000_0000, imm, rs1, 0b101, rd, opcode::OP_IMM),
        Inst::Srai { rd, rs1, imm } => shift_type(0b010_0000, imm, rs1, 0b101, rd, opcode::OP_IMM),
        Inst::Add { rd, rs1, rs2 } => r_type(0b000_0000, rs2, rs1, 0b000, rd, opcode::OP),
        Inst::Sub { rd, rs1, rs2 } => r_type(0b010_0000, rs2, rs1, 0b000, rd, opcode::OP),
        Inst::Sll { rd, rs1, rs2 } => r_type(0b000_0000, rs2, rs1, 0b001, rd, opcode::OP),
        Inst::Slt { rd, rs1, rs2 } => r_type(0b000_0000, rs2, rs1, 0b010, rd, opcode::OP),
        Inst::Sltu { rd, rs1, rs2 } => r_type(0b000_0000, rs2, rs1, 0b011, rd, opcode::OP),
        Inst::Xor { rd, rs1, rs2 } => r_type(0b000_0000, rs2, rs1, 0b100, rd, opcode::OP),
        Inst::Srl { rd, rs1, rs2 } => r_type(0b000_0000, rs2, rs1, 0b101, rd, opcode::OP),
        Inst::Sra { rd, rs1, rs2 } => r_type(0b010_0000, rs2, rs1, 0b101, rd, opcode::OP),
        Inst::Or { rd, rs1, rs2 } => r_type(0b000_0000, rs2, rs1, 0b110, rd, opcode::OP),
        Inst::And { rd, rs1, rs2 } => r_type(0b000_0000, rs2, rs1, 0b111, rd, opcode::OP),
        Inst::Fence { rd, rs1, imm } => i_type(imm, rs1, 0b000, rd, opcode::MISC_MEM),
        Inst::Ecall => 0x0000_0073,
        Inst::Ebreak => 0x0010_0073,
        Inst::Mul { rd, rs1, rs2 } => r_type(0b000_0001, rs2, rs1, 0b000, rd, opcode::OP),
        Inst::Mulh { rd, rs1, rs2 } => r_type(0b000_0001, rs2, rs1, 0b001, rd, opcode::OP),
        Inst::Mulhsu { rd, rs1, rs2 } => r_type(0b000_0001, rs2, rs1, 0b010, rd, opcode::OP),
        Inst::Mulhu { rd, rs1, rs2 } => r_type(0b000_0001, rs2, rs1, 0b011, rd, opcode::OP),
        Inst::Div { rd, rs1, rs2 } => r_type(0b000_0001, rs2, rs1, 0b100, rd, opcode::OP),
        Inst::Divu { rd, rs1, rs2 } => r_type(0b000_0001, rs2, rs1, 0b101, rd, opcode::OP),
        Inst::Rem { rd, rs1, rs2 } => r_type(0b000_0001, rs2, rs1, 0b110, rd, opcode::OP),
        Inst::Remu { rd, rs1, rs2 } => r_type(0b000_0001, rs2, rs1, 0b111, rd, opcode::OP),
    }
}
