//! Images of programs that write given bytes, one call each, and exit with a given status.
#![tactic(auto)]

ghost use Rattle.std.specs.Prelude.{◌≡◌, ℕ, ◌+◌, ◌*◌, ◌<◌, ◌≤◌, ◌++◌, ◌∷◌, List, [], length, IfOk, OnOk, pos};
ghost use Rattle.fsc_base.specs.Image.{IsSound};
ghost use Rattle.rv_isa.specs.Encoding.{IsValid};
ghost use Rattle.rv_isa.specs.Spelling.{word_of, spelled};
ghost use Rattle.rv_run.specs.Machine.{start_of};
ghost use Rattle.rv_run.specs.ImageRun.{image_run};
ghost use Rattle.plain_image.specs.Code.{load, prologue, write_byte, epilogue, code_of, image_of};
ghost use Rattle.plain_image.specs.Writing.{Writes};

use fsc_base::{Bytes, Image, NoMemory, Segment, Segments};
use rv_isa::{Inst, Reg, encode};
use std::alloc::Global;

/// Where the code begins.
const CODE: u32 = 0x10000;

/// Where the buffer of one byte lies.
const BUFFER: u32 = 0x20000;

/// Adds an instruction to code.
#[tactic(auto, unfolding(rv_isa::specs::Spelling::word_of))]
fn emit(code: &mut Vec<u8>, inst: Inst) -> Result<(), NoMemory>
    requires { IsValid inst }
    ensures { OnOk result (code.new.items ≡ code.old.items ++ word_of inst) }
{
    code.extend_from_slice(&encode(inst).to_le_bytes())?;
    Ok(())
}

/// Adds an instruction that makes a register a number from 0 to 2047.
fn emit_load(code: &mut Vec<u8>, rd: u8, number: u16) -> Result<(), NoMemory>
    requires { (rd < 32) × (number < 2048) }
    ensures { OnOk result (code.new.items ≡ code.old.items ++ word_of (load rd number)) }
{
    let rd = Reg::new(rd);
    let rs1 = Reg::new(0);
    let imm = i32::from(number);
    emit(code, Inst::Addi { rd, rs1, imm })
}

/// Adds what stands before the first byte: stream 1, the buffer and its size, and the call that writes.
fn emit_prologue(code: &mut Vec<u8>) -> Result<(), NoMemory>
    ensures { OnOk result (code.new.items ≡ code.old.items ++ spelled prologue) }
{
    emit_load(code, 10, 1)?;
    let rd = Reg::new(11);
    emit(code, Inst::Lui { rd, imm: 32 })?;
    emit_load(code, 12, 1)?;
    emit_load(code, 17, 64)
}

/// Adds the writing of one byte.
fn emit_byte(code: &mut Vec<u8>, byte: u8) -> Result<(), NoMemory>
    ensures { OnOk result (code.new.items ≡ code.old.items ++ spelled (write_byte byte)) }
{
    emit_load(code, 5, u16::from(byte))?;
    let rs1 = Reg::new(11);
    let rs2 = Reg::new(5);
    emit(code, Inst::Sb { rs1, rs2, imm: 0 })?;
    emit(code, Inst::Ecall)
}

/// Adds the exit.
fn emit_epilogue(code: &mut Vec<u8>, status: u8) -> Result<(), NoMemory>
    ensures { OnOk result (code.new.items ≡ code.old.items ++ spelled (epilogue status)) }
{
    emit_load(code, 10, u16::from(status))?;
    emit_load(code, 17, 93)?;
    emit(code, Inst::Ecall)
}

/// The code of a whole program, as bytes of memory.
fn code(alloc: Global, bytes: &[u8], status: u8) -> Result<Vec<u8>, NoMemory>
    ensures { IfOk result (λ code. code.items ≡ spelled (code_of bytes.now status)) }
{
    let mut code = Vec::new(alloc);
    emit_prologue(&mut code)?;
    for byte in bytes {
        emit_byte(&mut code, *byte)?;
    }
    emit_epilogue(&mut code, status)?;
    Ok(code)
}

/// The image of such a program: its code, which may be executed alone, and the buffer.
fn assembled(alloc: Global, bytes: &[u8], status: u8) -> Result<Image, NoMemory>
    requires { length bytes.now ≤ 1000 }
    ensures { IfOk result (λ image. image ≡ image_of bytes.now status) }
{
    let code = Bytes::from_vec(code(alloc, bytes, status)?);
    let code = Segment {
        address: CODE,
        size: code.as_slice().len() as u32,
        flags: 1,
        bytes: code,
    };
    let buffer = Segment {
        address: BUFFER,
        size: 1,
        flags: 6,
        bytes: Bytes::from_vec(Vec::new(alloc)),
    };
    Ok(Image {
        entry: CODE,
        segments: Segments::from_vec(vec![in alloc; code, buffer]?),
    })
}

/// The image of a program that writes `bytes`, at most 1,000 of them, one environment call each, and exits with
/// `status`. Refused only for want of memory.
pub fn image(alloc: Global, bytes: &[u8], status: u8) -> Result<Image, NoMemory>
    requires { length bytes.now ≤ 1000 }
    ensures sound { IfOk result IsSound }
    ensures writes { IfOk result (λ image. (n : ℕ) (input : List ℕ) → Writes bytes.now status n input (image_run n (start_of image) input)) }
{
    let image = assembled(alloc, bytes, status)?;
    Ok(image)
}
