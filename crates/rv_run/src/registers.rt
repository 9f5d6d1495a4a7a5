//! Registers, and the way from one instruction to the next.

ghost use Rattle.std.specs.Prelude.{◌≡◌, ◌+◌, ◌%◌, ◌^◌, ◌<◌, true, Ok, Err};
ghost use Rattle.rv_run.specs.Machine.{value_of, with_register, following, counted, next, sum_of, offset_by, with_mark, arrives, links, branches, gives, addi, goes};
ghost use Rattle.rv_run.specs.ImageRun.{MeetsRow};

use crate::machine::Machine;
use crate::stop::{Refusal, TrapKind};
use rv_isa::Reg;

/// What came of an instruction: it went on, or why it did not.
pub(crate) type Done = Result<(), Refusal>;

impl Machine {
    /// What a register holds.
    pub(crate) fn value(&self, r: Reg) -> u32
        ensures { result ≡ value_of self.now r }
    {
        self.registers[r.number() as usize]
    }

    /// Makes `value` what a register holds, but for x0.
    pub(crate) fn set_register(&mut self, r: Reg, value: u32)
        ensures { self.new ≡ with_register self.old r value }
    {
        if r.number() != 0 {
            self.registers[r.number() as usize] = value;
        }
    }

    /// The sum of a register and an immediate, modulo 2^32.
    pub(crate) fn sum(&self, r: Reg, imm: i32) -> u32
        ensures { result ≡ sum_of self.now r imm }
    {
        self.value(r).wrapping_add(imm.cast_unsigned())
    }

    /// Counts the instruction and goes on to the one behind it.
    pub(crate) fn advance(&mut self)
        requires { self.old.count + 1 < 2 ^ 64 }
        ensures { self.new ≡ next self.old }
    {
        self.pc = self.pc.wrapping_add(4);
        self.count += 1;
    }

    /// The same of a mark, which counts as such too.
    pub(crate) fn advance_past_mark(&mut self)
        requires { self.old.count + 1 < 2 ^ 64 }
        ensures { self.new ≡ next (with_mark true self.old) }
    {
        self.pc = self.pc.wrapping_add(4);
        self.count += 1;
        self.marks += 1;
    }

    /// Makes `value` what a register holds, and goes on.
    pub(crate) fn give(&mut self, rd: Reg, value: u32)
        requires { self.old.count + 1 < 2 ^ 64 }
        ensures { goes self.new ≡ gives rd value self.old }
    {
        self.set_register(rd, value);
        self.advance();
    }

    /// ADDI, and with it the mark.
    pub(crate) fn addi(&mut self, rd: Reg, rs1: Reg, imm: i32)
        requires { self.old.count + 1 < 2 ^ 64 }
        ensures { goes self.new ≡ addi rd rs1 imm self.old }
    {
        let sum = self.sum(rs1, imm);
        self.set_register(rd, sum);
        if rd.number() == 0 && rs1.number() == 0 && imm == 1 {
            self.advance_past_mark();
        } else {
            self.advance();
        }
    }

    /// Goes on at a target, a multiple of 4.
    fn go_to(&mut self, target: u32)
        requires counts { self.old.count + 1 < 2 ^ 64 }
        requires aligned { target % 4 ≡ 0 }
        ensures { arrives target self.old ≡ goes self.new }
    {
        self.pc = target;
        self.count += 1;
    }

    /// Goes on at a target, which has to be a multiple of 4.
    fn arrive(&mut self, target: u32) -> Done
        requires { self.old.count + 1 < 2 ^ 64 }
        ensures { MeetsRow (arrives target self.old) self.old self.new result }
    {
        if target % 4 != 0 {
            return Err(Refusal::Trap(TrapKind::Misaligned));
        }
        self.go_to(target);
        Ok(())
    }

    /// Makes the address behind the instruction what a register holds, and goes on at a target.
    pub(crate) fn link(&mut self, rd: Reg, target: u32) -> Done
        requires { self.old.count + 1 < 2 ^ 64 }
        ensures { MeetsRow (links rd target self.old) self.old self.new result }
    {
        if target % 4 != 0 {
            return Err(Refusal::Trap(TrapKind::Misaligned));
        }
        let behind = self.pc.wrapping_add(4);
        self.set_register(rd, behind);
        self.go_to(target);
        Ok(())
    }

    /// So many bytes from the pc, modulo 2^32.
    pub(crate) fn offset(&self, imm: i32) -> u32
        ensures { result ≡ offset_by self.now imm }
    {
        self.pc.wrapping_add(imm.cast_unsigned())
    }

    /// Goes on at so many bytes from the pc where the branch is taken, else behind the instruction.
    pub(crate) fn branch(&mut self, taken: bool, imm: i32) -> Done
        requires { self.old.count + 1 < 2 ^ 64 }
        ensures { MeetsRow (branches taken imm self.old) self.old self.new result }
    {
        if taken {
            let target = self.offset(imm);
            return self.arrive(target);
        }
        self.advance();
        Ok(())
    }
}
