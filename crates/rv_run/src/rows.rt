//! The rows of instructions that load and store.

ghost use Rattle.std.specs.Prelude.{◌≡◌, ◌+◌, ◌%◌, ◌^◌, ◌<◌};
ghost use Rattle.rv_run.specs.Machine.{sign_extended, load_trap, loads, stores, value_of};
ghost use Rattle.rv_run.specs.ImageRun.{MeetsRow, store_refusal};

use crate::machine::Machine;
use crate::registers::Done;
use crate::stop::{Refusal, TrapKind};
use guest_mem::{Fault, StoreNo};
use rv_isa::Reg;

/// A byte, read as signed, in 32 bits.
fn extend8(value: u8) -> u32
    ensures { result ≡ sign_extended 8 value }
{
    let value = u32::from(value);
    if value < 0x80 {
        value
    } else {
        value + 0xffff_ff00
    }
}

/// A half word, read as signed, in 32 bits.
fn extend16(value: u16) -> u32
    ensures { result ≡ sign_extended 16 value }
{
    let value = u32::from(value);
    if value < 0x8000 {
        value
    } else {
        value + 0xffff_0000
    }
}

/// The trap of a refused load.
fn load_trap(fault: Fault) -> TrapKind
    ensures { result ≡ load_trap fault }
{
    match fault {
        Fault::Misaligned => TrapKind::Misaligned,
        Fault::Outside => TrapKind::Load,
    }
}

/// Why a refused store does not go on.
fn store_refusal(refusal: StoreNo) -> Refusal
    ensures { result ≡ store_refusal refusal }
{
    match refusal {
        StoreNo::Misaligned => Refusal::Trap(TrapKind::Misaligned),
        StoreNo::Outside => Refusal::Trap(TrapKind::Store),
        StoreNo::NoMemory => Refusal::NoMemory,
    }
}

impl Machine {
    /// LB.
    pub(crate) fn lb(&mut self, rd: Reg, rs1: Reg, imm: i32) -> Done
        requires { self.old.count + 1 < 2 ^ 64 }
        ensures { MeetsRow (loads 1 rd rs1 imm (sign_extended 8) self.old) self.old self.new result }
    {
        match self.memory.load8(self.sum(rs1, imm)) {
            Ok(value) => self.give(rd, extend8(value)),
            Err(fault) => return Err(Refusal::Trap(load_trap(fault))),
        }
        Ok(())
    }

    /// LH.
    pub(crate) fn lh(&mut self, rd: Reg, rs1: Reg, imm: i32) -> Done
        requires { self.old.count + 1 < 2 ^ 64 }
        ensures { MeetsRow (loads 2 rd rs1 imm (sign_extended 16) self.old) self.old self.new result }
    {
        match self.memory.load16(self.sum(rs1, imm)) {
            Ok(value) => self.give(rd, extend16(value)),
            Err(fault) => return Err(Refusal::Trap(load_trap(fault))),
        }
        Ok(())
    }

    /// LW.
    pub(crate) fn lw(&mut self, rd: Reg, rs1: Reg, imm: i32) -> Done
        requires { self.old.count + 1 < 2 ^ 64 }
        ensures { MeetsRow (loads 4 rd rs1 imm (λ value. value) self.old) self.old self.new result }
    {
        match self.memory.load32(self.sum(rs1, imm)) {
            Ok(value) => self.give(rd, value),
            Err(fault) => return Err(Refusal::Trap(load_trap(fault))),
        }
        Ok(())
    }

    /// LBU.
    pub(crate) fn lbu(&mut self, rd: Reg, rs1: Reg, imm: i32) -> Done
        requires { self.old.count + 1 < 2 ^ 64 }
        ensures { MeetsRow (loads 1 rd rs1 imm (λ value. value) self.old) self.old self.new result }
    {
        match self.memory.load8(self.sum(rs1, imm)) {
            Ok(value) => self.give(rd, u32::from(value)),
            Err(fault) => return Err(Refusal::Trap(load_trap(fault))),
        }
        Ok(())
    }

    /// LHU.
    pub(crate) fn lhu(&mut self, rd: Reg, rs1: Reg, imm: i32) -> Done
        requires { self.old.count + 1 < 2 ^ 64 }
        ensures { MeetsRow (loads 2 rd rs1 imm (λ value. value) self.old) self.old self.new result }
    {
        match self.memory.load16(self.sum(rs1, imm)) {
            Ok(value) => self.give(rd, u32::from(value)),
            Err(fault) => return Err(Refusal::Trap(load_trap(fault))),
        }
        Ok(())
    }

    /// SB.
    pub(crate) fn sb(&mut self, rs1: Reg, rs2: Reg, imm: i32) -> Done
        requires { self.old.count + 1 < 2 ^ 64 }
        ensures { MeetsRow (stores 1 rs1 imm (value_of self.old rs2 % 2 ^ 8) self.old) self.old self.new result }
    {
        let at = self.sum(rs1, imm);
        let value = (self.value(rs2) & 0xff) as u8;
        match self.memory.store8(at, value) {
            Ok(()) => self.advance(),
            Err(refusal) => return Err(store_refusal(refusal)),
        }
        Ok(())
    }

    /// SH.
    pub(crate) fn sh(&mut self, rs1: Reg, rs2: Reg, imm: i32) -> Done
        requires { self.old.count + 1 < 2 ^ 64 }
        ensures { MeetsRow (stores 2 rs1 imm (value_of self.old rs2 % 2 ^ 16) self.old) self.old self.new result }
    {
        let at = self.sum(rs1, imm);
        let value = (self.value(rs2) & 0xffff) as u16;
        match self.memory.store16(at, value) {
            Ok(()) => self.advance(),
            Err(refusal) => return Err(store_refusal(refusal)),
        }
        Ok(())
    }

    /// SW.
    pub(crate) fn sw(&mut self, rs1: Reg, rs2: Reg, imm: i32) -> Done
        requires { self.old.count + 1 < 2 ^ 64 }
        ensures { MeetsRow (stores 4 rs1 imm (value_of self.old rs2) self.old) self.old self.new result }
    {
        let at = self.sum(rs1, imm);
        let value = self.value(rs2);
        match self.memory.store32(at, value) {
            Ok(()) => self.advance(),
            Err(refusal) => return Err(store_refusal(refusal)),
        }
        Ok(())
    }
}
