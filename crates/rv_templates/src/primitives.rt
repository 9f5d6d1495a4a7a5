//! The primitives of the library.

use crate::control::jump;
use crate::pieces::{NO_BASE, call_runtime, fill, from_frame, spill};
use crate::site::Site;
use c_ops::Primitive;
use rv_asm::{AsmNo, Assembler, Label, inst};
use rv_isa::{Inst, registers};

/// The number 0.
const NOTHING: [Inst; 2] = [inst!(addi A0, ZERO, 0), NO_BASE];

/// The number of bytes comes to A4.
const BYTES: Inst = inst!(addi A4, A0, 0);

/// A primitive without arguments.
fn call_pushing(asm: &mut Assembler, site: &Site, height: u8, routine: Label) -> Result<(), AsmNo> {
    asm.emit_all(&spill(site, height))?;
    call_runtime(asm, routine)
}

/// Copies a number of bytes that is known only in the run.
fn copy_bytes(asm: &mut Assembler, site: &Site, height: u8) -> Result<(), AsmNo> {
    asm.emit(BYTES)?;
    asm.emit_all(&fill(site, height))?;
    asm.emit_all(&from_frame(site.frame.third(height), registers::A2, registers::A3))?;
    call_runtime(asm, site.entries.ranges.copy)?;
    asm.emit_all(&NOTHING)
}

/// Ends the run as `abort` does.
fn abort(asm: &mut Assembler, site: &Site, height: u8) -> Result<(), AsmNo> {
    asm.emit_all(&spill(site, height))?;
    jump(asm, site.entries.stops.abort)
}

/// Pushes the address of the block of the words beyond the parameters, null where there is none.
fn extra(asm: &mut Assembler, site: &Site, height: u8) -> Result<(), AsmNo> {
    if site.is_variadic {
        return call_pushing(asm, site, height, site.entries.primitives.va);
    }
    asm.emit_all(&spill(site, height))?;
    asm.emit_all(&NOTHING)
}

/// Takes a primitive's arguments, and pushes its result.
pub fn primitive(
    asm: &mut Assembler,
    site: &Site,
    height: u8,
    which: Primitive,
) -> Result<(), AsmNo> {
    let routines = site.entries.primitives;
    match which {
        Primitive::Put => call_runtime(asm, routines.put),
        Primitive::Get => call_pushing(asm, site, height, routines.get),
        Primitive::Alloc => call_runtime(asm, routines.alloc),
        Primitive::Release => call_runtime(asm, routines.release),
        Primitive::Size => call_runtime(asm, routines.size),
        Primitive::Copy => copy_bytes(asm, site, height),
        Primitive::Exit => call_runtime(asm, routines.exit),
        Primitive::Abort => abort(asm, site, height),
        Primitive::Extra => extra(asm, site, height),
    }
}
