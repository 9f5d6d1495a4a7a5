//! Accesses, copies, clearing and deciding.

use crate::pieces::{call_runtime, constant, extended, fill, second};
use crate::site::Site;
use crate::words::MOVED;
use fsc_base::{Width, WordKind};
use rv_asm::{AsmNo, Assembler};
use rv_isa::registers;

/// A shape, as code names it.
#[derive(Clone, Copy, Debug, PartialEq, Eq)]
pub struct ShapePlace {
    /// How many bytes behind the start of the data segment its descriptor stands.
    pub descriptor: u32,
    /// The kind of its word, where it has one word.
    pub single: Option<WordKind>,
}

/// Whether an access of this width by this shape has a routine of its own: a fat word as a whole, or a part of a narrow word.
fn is_near(width: Width, shape: ShapePlace) -> bool {
    match (width, shape.single) {
        (_, None) => false,
        (Width::Four, Some(WordKind::Fat)) => true,
        (Width::Four, Some(WordKind::Narrow)) => false,
        (Width::One | Width::Two, Some(WordKind::Fat)) => false,
        (Width::One | Width::Two, Some(WordKind::Narrow)) => true,
    }
}

/// Makes what was loaded a whole word.
fn extend(asm: &mut Assembler, width: Width, is_signed: bool) -> Result<(), AsmNo> {
    match width {
        Width::One if is_signed => asm.emit_all(&extended(8, true)),
        Width::Two if is_signed => asm.emit_all(&extended(16, true)),
        Width::One | Width::Two | Width::Four => Ok(()),
    }
}

/// Calls the load of this width, with the address in A0, A1.
fn call_load(
    asm: &mut Assembler,
    site: &Site,
    width: Width,
    shape: ShapePlace,
    member: u32,
) -> Result<(), AsmNo> {
    if is_near(width, shape) {
        return call_runtime(asm, site.entries.near.load(width));
    }
    asm.emit_all(&constant(registers::T5, member))?;
    call_runtime(asm, site.entries.methods.load(width))
}

/// Takes an address, and pushes what stands there, by a pointer to a type of this shape that is `member` bytes before the address.
pub fn load(
    asm: &mut Assembler,
    site: &Site,
    width: Width,
    is_signed: bool,
    shape: ShapePlace,
    member: u32,
) -> Result<(), AsmNo> {
    asm.emit_all(&constant(registers::T4, shape.descriptor))?;
    call_load(asm, site, width, shape, member)?;
    extend(asm, width, is_signed)
}

/// Takes a word, and an address below it, writes the word there, and pushes it.
pub fn store(
    asm: &mut Assembler,
    site: &Site,
    height: u8,
    width: Width,
    shape: ShapePlace,
    member: u32,
) -> Result<(), AsmNo> {
    asm.emit_all(&second(site, height))?;
    asm.emit_all(&constant(registers::T4, shape.descriptor))?;
    if is_near(width, shape) {
        return call_runtime(asm, site.entries.near.store(width));
    }
    asm.emit_all(&constant(registers::T5, member))?;
    call_runtime(asm, site.entries.methods.store(width))
}

/// Decides the block of the last word as a shape.
pub fn cast(asm: &mut Assembler, site: &Site, shape: ShapePlace) -> Result<(), AsmNo> {
    asm.emit_all(&constant(registers::T4, shape.descriptor))?;
    call_runtime(asm, site.entries.ranges.decide)
}

/// Takes the address of a source, and copies so many bytes to the address below it, which stays.
pub fn copy(asm: &mut Assembler, site: &Site, height: u8, bytes: u32) -> Result<(), AsmNo> {
    asm.emit_all(&second(site, height))?;
    asm.emit_all(&constant(registers::A4, bytes))?;
    call_runtime(asm, site.entries.ranges.copy)?;
    asm.emit_all(&MOVED)
}

/// Takes an address, and clears so many bytes there.
pub fn clear(asm: &mut Assembler, site: &Site, height: u8, bytes: u32) -> Result<(), AsmNo> {
    asm.emit_all(&constant(registers::A4, bytes))?;
    call_runtime(asm, site.entries.ranges.clear)?;
    asm.emit_all(&fill(site, height))
}
