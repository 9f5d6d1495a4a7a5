//! Instructions as lines, and their words.

ghost use Rattle.std.specs.Prelude.{◌<◌, IfOk};

use crate::told::{Told, tell, tell_number, tell_whether};
use case_table::{NoStep, immediate_of, number_of};
use rv_isa::{Inst, Reg, decode, encode};
use std::alloc::Global;

/// The number of the register of a word `x0` to `x31`.
pub fn register_of(word: &str) -> Result<u8, NoStep>
    ensures { IfOk result (λ number. number < 32) }
{
    match word.strip_prefix('x').map(|digits| digits.parse::<u8>()) {
        Some(Ok(number)) if number < 32 => Ok(number),
        _ => Err(NoStep::Malformed("no register")),
    }
}

/// The instruction of format U or J.
fn upper(name: &str, rd: Reg, imm: i32) -> Option<Inst> {
    match name {
        "lui" => Some(Inst::Lui { rd, imm }),
        "auipc" => Some(Inst::Auipc { rd, imm }),
        "jal" => Some(Inst::Jal { rd, imm }),
        _ => None,
    }
}

/// The branch.
fn branch(name: &str, rs1: Reg, rs2: Reg, imm: i32) -> Option<Inst> {
    match name {
        "beq" => Some(Inst::Beq { rs1, rs2, imm }),
        "bne" => Some(Inst::Bne { rs1, rs2, imm }),
        "blt" => Some(Inst::Blt { rs1, rs2, imm }),
        "bge" => Some(Inst::Bge { rs1, rs2, imm }),
        "bltu" => Some(Inst::Bltu { rs1, rs2, imm }),
        "bgeu" => Some(Inst::Bgeu { rs1, rs2, imm }),
        _ => None,
    }
}

/// The load, JALR or FENCE.
fn load(name: &str, rd: Reg, rs1: Reg, imm: i32) -> Option<Inst> {
    match name {
        "lb" => Some(Inst::Lb { rd, rs1, imm }),
        "lh" => Some(Inst::Lh { rd, rs1, imm }),
        "lw" => Some(Inst::Lw { rd, rs1, imm }),
        "lbu" => Some(Inst::Lbu { rd, rs1, imm }),
        "lhu" => Some(Inst::Lhu { rd, rs1, imm }),
        "jalr" => Some(Inst::Jalr { rd, rs1, imm }),
        "fence" => Some(Inst::Fence { rd, rs1, imm }),
        _ => None,
    }
}

/// The store.
fn store(name: &str, rs1: Reg, rs2: Reg, imm: i32) -> Option<Inst> {
    match name {
        "sb" => Some(Inst::Sb { rs1, rs2, imm }),
        "sh" => Some(Inst::Sh { rs1, rs2, imm }),
        "sw" => Some(Inst::Sw { rs1, rs2, imm }),
        _ => None,
    }
}

/// The instruction that computes of a register and an immediate.
fn computation(name: &str, rd: Reg, rs1: Reg, imm: i32) -> Option<Inst> {
    match name {
        "addi" => Some(Inst::Addi { rd, rs1, imm }),
        "slti" => Some(Inst::Slti { rd, rs1, imm }),
        "sltiu" => Some(Inst::Sltiu { rd, rs1, imm }),
        "xori" => Some(Inst::Xori { rd, rs1, imm }),
        "ori" => Some(Inst::Ori { rd, rs1, imm }),
        "andi" => Some(Inst::Andi { rd, rs1, imm }),
        "slli" => Some(Inst::Slli { rd, rs1, imm }),
        "srli" => Some(Inst::Srli { rd, rs1, imm }),
        "srai" => Some(Inst::Srai { rd, rs1, imm }),
        _ => None,
    }
}

/// The instruction of RV32I that computes of two registers.
fn sum(name: &str, rd: Reg, rs1: Reg, rs2: Reg) -> Option<Inst> {
    match name {
        "add" => Some(Inst::Add { rd, rs1, rs2 }),
        "sub" => Some(Inst::Sub { rd, rs1, rs2 }),
        "sll" => Some(Inst::Sll { rd, rs1, rs2 }),
        "slt" => Some(Inst::Slt { rd, rs1, rs2 }),
        "sltu" => Some(Inst::Sltu { rd, rs1, rs2 }),
        "xor" => Some(Inst::Xor { rd, rs1, rs2 }),
        "srl" => Some(Inst::Srl { rd, rs1, rs2 }),
        "sra" => Some(Inst::Sra { rd, rs1, rs2 }),
        "or" => Some(Inst::Or { rd, rs1, rs2 }),
        "and" => Some(Inst::And { rd, rs1, rs2 }),
        _ => None,
    }
}

/// The instruction that multiplies or divides.
fn product(name: &str, rd: Reg, rs1: Reg, rs2: Reg) -> Option<Inst> {
    match name {
        "mul" => Some(Inst::Mul { rd, rs1, rs2 }),
        "mulh" => Some(Inst::Mulh { rd, rs1, rs2 }),
        "mulhsu" => Some(Inst::Mulhsu { rd, rs1, rs2 }),
        "mulhu" => Some(Inst::Mulhu { rd, rs1, rs2 }),
        "div" => Some(Inst::Div { rd, rs1, rs2 }),
        "divu" => Some(Inst::Divu { rd, rs1, rs2 }),
        "rem" => Some(Inst::Rem { rd, rs1, rs2 }),
        "remu" => Some(Inst::Remu { rd, rs1, rs2 }),
        _ => None,
    }
}

/// The instruction of two registers and an immediate: rd and rs1, or rs1 and rs2.
fn with_immediate(name: &str, one: Reg, other: Reg, imm: i32) -> Option<Inst> {
    branch(name, one, other, imm)
        .or(load(name, one, other, imm))
        .or(store(name, one, other, imm))
        .or(computation(name, one, other, imm))
}

/// The instruction that words spell: its name, and its operands in the order rd, rs1, rs2, immediate.
pub fn inst_of(words: &[&str]) -> Result<Inst, NoStep> {
    let found = match words {
        ["ecall"] => Some(Inst::Ecall),
        ["ebreak"] => Some(Inst::Ebreak),
        [name, rd, imm] => upper(name, Reg::new(register_of(rd)?), immediate_of(imm)?),
        [name, one, other, third] => {
            let (one, other) = (Reg::new(register_of(one)?), Reg::new(register_of(other)?));
            if third.starts_with('x') {
                let third = Reg::new(register_of(third)?);
                sum(name, one, other, third).or(product(name, one, other, third))
            } else {
                with_immediate(name, one, other, immediate_of(third)?)
            }
        }
        _ => None,
    };
    found.ok_or(NoStep::Malformed("no such instruction"))
}

/// The word of an instruction, which is read back as the same instruction.
fn tell_word(alloc: Global, inst: Inst) -> Told {
    if !inst.is_valid() {
        return tell(alloc, "invalid");
    }
    let word = encode(inst);
    if decode(word) == Some(inst) {
        tell_number(alloc, word)
    } else {
        tell(alloc, "another")
    }
}

/// Does a step of instructions: `inst` gives the word, `valid` whether it has one, `word` whether a word is one's.
pub fn step(alloc: Global, words: &[&str]) -> Told {
    match words {
        ["inst", inst @ ..] => match inst_of(inst) {
            Ok(inst) => tell_word(alloc, inst),
            Err(refusal) => Err(refusal),
        },
        ["valid", inst @ ..] => match inst_of(inst) {
            Ok(inst) => tell_whether(alloc, inst.is_valid()),
            Err(refusal) => Err(refusal),
        },
        ["is_instruction", word] => tell_whether(alloc, decode(number_of(word)?).is_some()),
        _ => Ok(None),
    }
}
