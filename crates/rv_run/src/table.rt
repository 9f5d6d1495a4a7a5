//! The table of instructions that ask nothing of the environment: one line for each.

ghost use Rattle.std.specs.Prelude.{◌≡◌, ◌≢◌, ◌+◌, ◌^◌, ◌<◌};
ghost use Rattle.rv_isa.specs.Encoding.{IsValid, IsUnsigned20};
ghost use Rattle.rv_run.specs.Machine.{row, upper_of};
ghost use Rattle.rv_run.specs.ImageRun.{MeetsRow};

use crate::machine::Machine;
use crate::registers::Done;
use crate::stop::{Refusal, TrapKind};
use rv_arith::{
    add, div, divu, mul, mulh, mulhsu, mulhu, rem, remu, sll, slt, sltu, sra, srl, sub,
};
use rv_isa::Inst;

/// An immediate of format U, which stands for the upper bits.
fn upper(imm: i32) -> u32
    requires { IsUnsigned20 imm }
    ensures { result ≡ upper_of imm }
{
    imm.cast_unsigned() << 12
}

impl Machine {
    /// Performs an instruction other than ECALL by its row.
    #[tactic(auto, unfolding(crate::specs::Machine::row))]
    pub(crate) fn follow(&mut self, inst: Inst) -> Done
        requires valid { IsValid inst }
        requires own { inst ≢ Inst.Ecall }
        requires counts { self.old.count + 1 < 2 ^ 64 }
        ensures { MeetsRow (row inst self.old) self.old self.new result }
    {
        match inst {
            Inst::Lui { rd, imm } => self.give(rd, upper(imm)),
            Inst::Auipc { rd, imm } => self.give(rd, add(self.pc, upper(imm))),
            Inst::Jal { rd, imm } => return self.link(rd, self.offset(imm)),
            Inst::Jalr { rd, rs1, imm } => return self.link(rd, self.sum(rs1, imm) & !1),
            Inst::Beq { rs1, rs2, imm } => return self.branch(
                self.value(rs1) == self.value(rs2),
                imm,
            ),
            Inst::Bne { rs1, rs2, imm } => return self.branch(
                self.value(rs1) != self.value(rs2),
                imm,
            ),
            Inst::Blt { rs1, rs2, imm } => return self.branch(
                self.value(rs1).cast_signed() < self.value(rs2).cast_signed(),
                imm,
            ),
            Inst::Bge { rs1, rs2, imm } => return self.branch(
                self.value(rs1).cast_signed() >= self.value(rs2).cast_signed(),
                imm,
            ),
            Inst::Bltu { rs1, rs2, imm } => return self.branch(
                self.value(rs1) < self.value(rs2),
                imm,
            ),
            Inst::Bgeu { rs1, rs2, imm } => return self.branch(
                self.value(rs1) >= self.value(rs2),
                imm,
            ),
            Inst::Lb { rd, rs1, imm } => return self.lb(rd, rs1, imm),
            Inst::Lh { rd, rs1, imm } => return self.lh(rd, rs1, imm),
            Inst::Lw { rd, rs1, imm } => return self.lw(rd, rs1, imm),
            Inst::Lbu { rd, rs1, imm } => return self.lbu(rd, rs1, imm),
            Inst::Lhu { rd, rs1, imm } => return self.lhu(rd, rs1, imm),
            Inst::Sb { rs1, rs2, imm } => return self.sb(rs1, rs2, imm),
            Inst::Sh { rs1, rs2, imm } => return self.sh(rs1, rs2, imm),
            Inst::Sw { rs1, rs2, imm } => return self.sw(rs1, rs2, imm),
            Inst::Addi { rd, rs1, imm } => self.addi(rd, rs1, imm),
            Inst::Slti { rd, rs1, imm } => self.give(rd, slt(self.value(rs1), imm.cast_unsigned())),
            Inst::Sltiu { rd, rs1, imm } => self.give(
                rd,
                sltu(self.value(rs1), imm.cast_unsigned()),
            ),
            Inst::Xori { rd, rs1, imm } => self.give(rd, self.value(rs1) ^ imm.cast_unsigned()),
            Inst::Ori { rd, rs1, imm } => self.give(rd, self.value(rs1) | imm.cast_unsigned()),
            Inst::Andi { rd, rs1, imm } => self.give(rd, self.value(rs1) & imm.cast_unsigned()),
            Inst::Slli { rd, rs1, imm } => self.give(rd, sll(self.value(rs1), imm.cast_unsigned())),
            Inst::Srli { rd, rs1, imm } => self.give(rd, srl(self.value(rs1), imm.cast_unsigned())),
            Inst::Srai { rd, rs1, imm } => self.give(rd, sra(self.value(rs1), imm.cast_unsigned())),
            Inst::Add { rd, rs1, rs2 } => self.give(rd, add(self.value(rs1), self.value(rs2))),
            Inst::Sub { rd, rs1, rs2 } => self.give(rd, sub(self.value(rs1), self.value(rs2))),
            Inst::Sll { rd, rs1, rs2 } => self.give(rd, sll(self.value(rs1), self.value(rs2))),
            Inst::Slt { rd, rs1, rs2 } => self.give(rd, slt(self.value(rs1), self.value(rs2))),
            Inst::Sltu { rd, rs1, rs2 } => self.give(rd, sltu(self.value(rs1), self.value(rs2))),
            Inst::Xor { rd, rs1, rs2 } => self.give(rd, self.value(rs1) ^ self.value(rs2)),
            Inst::Srl { rd, rs1, rs2 } => self.give(rd, srl(self.value(rs1), self.value(rs2))),
            Inst::Sra { rd, rs1, rs2 } => self.give(rd, sra(self.value(rs1), self.value(rs2))),
            Inst::Or { rd, rs1, rs2 } => self.give(rd, self.value(rs1) | self.value(rs2)),
            Inst::And { rd, rs1, rs2 } => self.give(rd, self.value(rs1) & self.value(rs2)),
            Inst::Mul { rd, rs1, rs2 } => self.give(rd, mul(self.value(rs1), self.value(rs2))),
            Inst::Mulh { rd, rs1, rs2 } => self.give(rd, mulh(self.value(rs1), self.value(rs2))),
            Inst::Mulhsu { rd, rs1, rs2 } => self.give(
                rd,
                mulhsu(self.value(rs1), self.value(rs2)),
            ),
            Inst::Mulhu { rd, rs1, rs2 } => self.give(rd, mulhu(self.value(rs1), self.value(rs2))),
            Inst::Div { rd, rs1, rs2 } => self.give(rd, div(self.value(rs1), self.value(rs2))),
            Inst::Divu { rd, rs1, rs2 } => self.give(rd, divu(self.value(rs1), self.value(rs2))),
            Inst::Rem { rd, rs1, rs2 } => self.give(rd, rem(self.value(rs1), self.value(rs2))),
            Inst::Remu { rd, rs1, rs2 } => self.give(rd, remu(self.value(rs1), self.value(rs2))),
            Inst::Fence { .. } => self.advance(),
            Inst::Ebreak => return Err(Refusal::Trap(TrapKind::Break)),
            Inst::Ecall => unreachable!(),
        }
        Ok(())
    }
}
