//! From words to instructions.

ghost use Rattle.std.specs.Prelude.{◌≡◌, ℕ, ◌<◌, ◌^◌, IfSome, Some};
ghost use Rattle.rv_isa.specs.declared.inst.Inst.{Inst};
ghost use Rattle.rv_isa.specs.Encoding.{IsValid, NamesRegisters, Spells, encoding};
ghost use Rattle.rv_isa.specs.Decoding.{decoded, decoded_base_op, decoded_branch, decoded_jalr, decoded_left_shift, decoded_load, decoded_misc_mem, decoded_multiply, decoded_op, decoded_op_imm, decoded_other_op, decoded_right_shift, decoded_store, decoded_system};

use crate::inst::Inst;
use crate::{fields, opcode};

/// A word of the opcode JALR.
#[tactic(auto, unfolding(crate::specs::Decoding::decoded_jalr))]
fn decode_jalr(code: u32) -> Option<Inst>
    ensures { result ≡ decoded_jalr code }
{
    let (rd, rs1, imm) = (fields::rd(code), fields::rs1(code), fields::i_imm(code));
    match fields::funct3(code) {
        0b000 => Some(Inst::Jalr { rd, rs1, imm }),
        _ => None,
    }
}

/// A word of the opcode BRANCH.
#[tactic(auto, unfolding(crate::specs::Decoding::decoded_branch))]
fn decode_branch(code: u32) -> Option<Inst>
    ensures { result ≡ decoded_branch code }
{
    let (rs1, rs2, imm) = (fields::rs1(code), fields::rs2(code), fields::b_imm(code));
    match fields::funct3(code) {
        0b000 => Some(Inst::Beq { rs1, rs2, imm }),
        0b001 => Some(Inst::Bne { rs1, rs2, imm }),
        0b100 => Some(Inst::Blt { rs1, rs2, imm }),
        0b101 => Some(Inst::Bge { rs1, rs2, imm }),
        0b110 => Some(Inst::Bltu { rs1, rs2, imm }),
        0b111 => Some(Inst::Bgeu { rs1, rs2, imm }),
        _ => None,
    }
}

/// A word of the opcode LOAD.
#[tactic(auto, unfolding(crate::specs::Decoding::decoded_load))]
fn decode_load(code: u32) -> Option<Inst>
    ensures { result ≡ decoded_load code }
{
    let (rd, rs1, imm) = (fields::rd(code), fields::rs1(code), fields::i_imm(code));
    match fields::funct3(code) {
        0b000 => Some(Inst::Lb { rd, rs1, imm }),
        0b001 => Some(Inst::Lh { rd, rs1, imm }),
        0b010 => Some(Inst::Lw { rd, rs1, imm }),
        0b100 => Some(Inst::Lbu { rd, rs1, imm }),
        0b101 => Some(Inst::Lhu { rd, rs1, imm }),
        _ => None,
    }
}

/// A word of the opcode STORE.
#[tactic(auto, unfolding(crate::specs::Decoding::decoded_store))]
fn decode_store(code: u32) -> Option<Inst>
    ensures { result ≡ decoded_store code }
{
    let (rs1, rs2, imm) = (fields::rs1(code), fields::rs2(code), fields::s_imm(code));
    match fields::funct3(code) {
        0b000 => Some(Inst::Sb { rs1, rs2, imm }),
        0b001 => Some(Inst::Sh { rs1, rs2, imm }),
        0b010 => Some(Inst::Sw { rs1, rs2, imm }),
        _ => None,
    }
}

/// A word of the opcode OP-IMM whose funct3 is that of a shift to the left.
#[tactic(auto, unfolding(crate::specs::Decoding::decoded_left_shift))]
fn decode_left_shift(code: u32) -> Option<Inst>
    ensures { result ≡ decoded_left_shift code }
{
    let (rd, rs1, imm) = (fields::rd(code), fields::rs1(code), fields::shift_imm(code));
    match fields::funct7(code) {
        0b000_0000 => Some(Inst::Slli { rd, rs1, imm }),
        _ => None,
    }
}

/// A word of the opcode OP-IMM whose funct3 is that of the shifts to the right.
#[tactic(auto, unfolding(crate::specs::Decoding::decoded_right_shift))]
fn decode_right_shift(code: u32) -> Option<Inst>
    ensures { result ≡ decoded_right_shift code }
{
    let (rd, rs1, imm) = (fields::rd(code), fields::rs1(code), fields::shift_imm(code));
    match fields::funct7(code) {
        0b000_0000 => Some(Inst::Srli { rd, rs1, imm }),
        0b010_0000 => Some(Inst::Srai { rd, rs1, imm }),
        _ => None,
    }
}

/// A word of the opcode OP-IMM.
#[tactic(auto, unfolding(crate::specs::Decoding::decoded_op_imm))]
fn decode_op_imm(code: u32) -> Option<Inst>
    ensures { result ≡ decoded_op_imm code }
{
    let (rd, rs1, imm) = (fields::rd(code), fields::rs1(code), fields::i_imm(code));
    match fields::funct3(code) {
        0b000 => Some(Inst::Addi { rd, rs1, imm }),
        0b001 => decode_left_shift(code),
        0b010 => Some(Inst::Slti { rd, rs1, imm }),
        0b011 => Some(Inst::Sltiu { rd, rs1, imm }),
        0b100 => Some(Inst::Xori { rd, rs1, imm }),
        0b101 => decode_right_shift(code),
        0b110 => Some(Inst::Ori { rd, rs1, imm }),
        0b111 => Some(Inst::Andi { rd, rs1, imm }),
        _ => None,
    }
}

/// A word of the opcode OP with funct7 0000000.
#[tactic(auto, unfolding(crate::specs::Decoding::decoded_base_op))]
fn decode_base_op(code: u32) -> Option<Inst>
    ensures { result ≡ decoded_base_op code }
{
    let (rd, rs1, rs2) = (fields::rd(code), fields::rs1(code), fields::rs2(code));
    match fields::funct3(code) {
        0b000 => Some(Inst::Add { rd, rs1, rs2 }),
        0b001 => Some(Inst::Sll { rd, rs1, rs2 }),
        0b010 => Some(Inst::Slt { rd, rs1, rs2 }),
        0b011 => Some(Inst::Sltu { rd, rs1, rs2 }),
        0b100 => Some(Inst::Xor { rd, rs1, rs2 }),
        0b101 => Some(Inst::Srl { rd, rs1, rs2 }),
        0b110 => Some(Inst::Or { rd, rs1, rs2 }),
        0b111 => Some(Inst::And { rd, rs1, rs2 }),
        _ => None,
    }
}

/// A word of the opcode OP with funct7 0100000.
#[tactic(auto, unfolding(crate::specs::Decoding::decoded_other_op))]
fn decode_other_op(code: u32) -> Option<Inst>
    ensures { result ≡ decoded_other_op code }
{
    let (rd, rs1, rs2) = (fields::rd(code), fields::rs1(code), fields::rs2(code));
    match fields::funct3(code) {
        0b000 => Some(Inst::Sub { rd, rs1, rs2 }),
        0b101 => Some(Inst::Sra { rd, rs1, rs2 }),
        _ => None,
    }
}

/// A word of the opcode OP with funct7 0000001.
#[tactic(auto, unfolding(crate::specs::Decoding::decoded_multiply))]
fn decode_multiply(code: u32) -> Option<Inst>
    ensures { result ≡ decoded_multiply code }
{
    let (rd, rs1, rs2) = (fields::rd(code), fields::rs1(code), fields::rs2(code));
    match fields::funct3(code) {
        0b000 => Some(Inst::Mul { rd, rs1, rs2 }),
        0b001 => Some(Inst::Mulh { rd, rs1, rs2 }),
        0b010 => Some(Inst::Mulhsu { rd, rs1, rs2 }),
        0b011 => Some(Inst::Mulhu { rd, rs1, rs2 }),
        0b100 => Some(Inst::Div { rd, rs1, rs2 }),
        0b101 => Some(Inst::Divu { rd, rs1, rs2 }),
        0b110 => Some(Inst::Rem { rd, rs1, rs2 }),
        0b111 => Some(Inst::Remu { rd, rs1, rs2 }),
        _ => None,
    }
}

/// A word of the opcode OP.
#[tactic(auto, unfolding(crate::specs::Decoding::decoded_op))]
fn decode_op(code: u32) -> Option<Inst>
    ensures { result ≡ decoded_op code }
{
    match fields::funct7(code) {
        0b000_0000 => decode_base_op(code),
        0b010_0000 => decode_other_op(code),
        0b000_0001 => decode_multiply(code),
        _ => None,
    }
}

/// A word of the opcode MISC-MEM.
#[tactic(auto, unfolding(crate::specs::Decoding::decoded_misc_mem))]
fn decode_misc_mem(code: u32) -> Option<Inst>
    ensures { result ≡ decoded_misc_mem code }
{
    let (rd, rs1, imm) = (fields::rd(code), fields::rs1(code), fields::i_imm(code));
    match fields::funct3(code) {
        0b000 => Some(Inst::Fence { rd, rs1, imm }),
        _ => None,
    }
}

/// A word of the opcode SYSTEM.
#[tactic(auto, unfolding(crate::specs::Decoding::decoded_system))]
fn decode_system(code: u32) -> Option<Inst>
    ensures { result ≡ decoded_system code }
{
    match code {
        0x0000_0073 => Some(Inst::Ecall),
        0x0010_0073 => Some(Inst::Ebreak),
        _ => None,
    }
}

/// A word of any opcode.
#[tactic(auto, unfolding(crate::specs::Decoding::decoded))]
fn decode_any(code: u32) -> Option<Inst>
    ensures { result ≡ decoded code }
{
    match fields::opcode(code) {
        opcode::LUI => Some(Inst::Lui {
            rd: fields::rd(code),
            imm: fields::u_imm(code),
        }),
        opcode::AUIPC => Some(Inst::Auipc {
            rd: fields::rd(code),
            imm: fields::u_imm(code),
        }),
        opcode::JAL => Some(Inst::Jal {
            rd: fields::rd(code),
            imm: fields::j_imm(code),
        }),
        opcode::JALR => decode_jalr(code),
        opcode::BRANCH => decode_branch(code),
        opcode::LOAD => decode_load(code),
        opcode::STORE => decode_store(code),
        opcode::OP_IMM => decode_op_imm(code),
        opcode::OP => decode_op(code),
        opcode::MISC_MEM => decode_misc_mem(code),
        opcode::SYSTEM => decode_system(code),
        _ => None,
    }
}

/// The instruction that a word spells, or None exactly where it spells none.
pub fn decode(code: u32) -> Option<Inst>
    ensures found { IfSome result (Spells code) }
    ensures only { (inst : Inst) → Spells code inst → result ≡ Some inst }
    ensures table { result ≡ decoded code }
{
    decode_any(code)
}

/// The law of the table. The word of an instruction decodes to the instruction, and what a word decodes to has that
/// word.
pub fn round_trips()
    ensures instruction { (inst : Inst) → IsValid inst → NamesRegisters inst → (encoding inst < 2 ^ 32) × (decoded (encoding inst) ≡ Some inst) }
    ensures word { (code : ℕ) → code < 2 ^ 32 → IfSome (decoded code) (Spells code) }
{}
