//! The code of each operation.

use crate::names::Names;
use fat_code::Op;
use fsc_base::{Width, Word};
use rv_asm::{AsmNo, Assembler, Label};
use rv_templates as template;
use rv_templates::Site;

/// A function whose code is made.
#[derive(Clone, Copy)]
pub(crate) struct Body<'a> {
    pub site: Site,
    pub names: Names<'a>,
    /// For each operation its label, where it is one.
    pub labels: &'a [Option<Label>],
}

impl Body<'_> {
    /// The label that is the operation with this index.
    fn label(&self, index: u32) -> Option<Label> {
        *self.labels.get(index as usize)?
    }
}

/// Binds the label at an operation.
fn bind(asm: &mut Assembler, body: &Body, at: u32) -> Result<(), AsmNo> {
    match body.label(at) {
        None => Err(AsmNo::Misfit),
        Some(label) => asm.bind(label),
    }
}

fn jump(asm: &mut Assembler, body: &Body, to: u32) -> Result<(), AsmNo> {
    match body.label(to) {
        None => Err(AsmNo::Misfit),
        Some(label) => template::jump(asm, label),
    }
}

fn jump_zero(asm: &mut Assembler, body: &Body, height: u8, to: u32) -> Result<(), AsmNo> {
    match body.label(to) {
        None => Err(AsmNo::Misfit),
        Some(label) => template::jump_zero(asm, &body.site, height, label),
    }
}

fn jump_case(asm: &mut Assembler, body: &Body, value: u32, to: u32) -> Result<(), AsmNo> {
    match body.label(to) {
        None => Err(AsmNo::Misfit),
        Some(label) => template::jump_case(asm, value, label),
    }
}

/// Pushes an address, where it is one.
fn address(asm: &mut Assembler, body: &Body, height: u8, word: Option<Word>) -> Result<(), AsmNo> {
    match word {
        None => Err(AsmNo::Misfit),
        Some(word) => template::address(asm, &body.site, height, word),
    }
}

/// The slot with a number, where the function has it.
fn slot(body: &Body, number: u32) -> Option<u8> {
    let slot = u8::try_from(number).ok()?;
    if slot < body.site.frame.slots {
        Some(slot)
    } else {
        None
    }
}

fn slot_get(asm: &mut Assembler, body: &Body, height: u8, number: u32) -> Result<(), AsmNo> {
    match slot(body, number) {
        None => Err(AsmNo::Misfit),
        Some(slot) => template::slot_get(asm, &body.site, height, slot),
    }
}

fn slot_set(asm: &mut Assembler, body: &Body, number: u32) -> Result<(), AsmNo> {
    match slot(body, number) {
        None => Err(AsmNo::Misfit),
        Some(slot) => template::slot_set(asm, &body.site, slot),
    }
}

/// The entry block with a number, where the function has it.
fn entry_block(body: &Body, number: u32) -> Option<u8> {
    let entry = u8::try_from(number).ok()?;
    if entry < body.site.blocks {
        Some(entry)
    } else {
        None
    }
}

fn entry(asm: &mut Assembler, body: &Body, height: u8, number: u32) -> Result<(), AsmNo> {
    match entry_block(body, number) {
        None => Err(AsmNo::Misfit),
        Some(entry) => template::entry(asm, &body.site, height, entry),
    }
}

fn load(
    asm: &mut Assembler,
    body: &Body,
    width: Width,
    is_signed: bool,
    shape: u32,
    member: u32,
) -> Result<(), AsmNo> {
    match body.names.shape(shape) {
        None => Err(AsmNo::Misfit),
        Some(place) => template::load(asm, &body.site, width, is_signed, place, member),
    }
}

fn store(
    asm: &mut Assembler,
    body: &Body,
    height: u8,
    width: Width,
    shape: u32,
    member: u32,
) -> Result<(), AsmNo> {
    match body.names.shape(shape) {
        None => Err(AsmNo::Misfit),
        Some(place) => template::store(asm, &body.site, height, width, place, member),
    }
}

fn cast(asm: &mut Assembler, body: &Body, shape: u32) -> Result<(), AsmNo> {
    match body.names.shape(shape) {
        None => Err(AsmNo::Misfit),
        Some(place) => template::cast(asm, &body.site, place),
    }
}

/// The number of arguments and of the pending words below the called one.
fn passed(height: u8, arguments: u32) -> Option<(u8, u8)> {
    let arguments = u8::try_from(arguments).ok()?;
    let below = height.checked_sub(arguments)?.checked_sub(1)?;
    Some((below, arguments))
}

fn call(asm: &mut Assembler, body: &Body, height: u8, arguments: u32) -> Result<(), AsmNo> {
    match passed(height, arguments) {
        None => Err(AsmNo::Misfit),
        Some((below, arguments)) => template::call(asm, &body.site, height, below, arguments),
    }
}

/// Emits the code of the operation with an index, before which so many words are pending. Refused with `Misfit` where it names what
/// is not there.
pub(crate) fn emit_op(
    asm: &mut Assembler,
    body: &Body,
    at: u32,
    height: u8,
    op: Op,
) -> Result<(), AsmNo> {
    let site = &body.site;
    match op {
        Op::Label(_) => bind(asm, body, at),
        Op::Jump(to) => jump(asm, body, to),
        Op::JumpZero(to) => jump_zero(asm, body, height, to),
        Op::JumpCase { value, to } => jump_case(asm, body, value, to),
        Op::Number(value) => template::number(asm, site, height, value),
        Op::Symbol { symbol, offset } => {
            address(asm, body, height, body.names.symbol(symbol, offset))
        }
        Op::Object { object, offset } => {
            address(asm, body, height, body.names.object(object, offset))
        }
        Op::SlotGet(number) => slot_get(asm, body, height, number),
        Op::SlotSet(number) => slot_set(asm, body, number),
        Op::Entry(number) => entry(asm, body, height, number),
        Op::Load {
            width,
            is_signed,
            shape,
            member,
        } => load(asm, body, width, is_signed, shape, member),
        Op::Store {
            width,
            shape,
            member,
        } => store(asm, body, height, width, shape, member),
        Op::Binary(operator) => template::binary(asm, site, height, operator),
        Op::Unary(operator) => template::unary(asm, operator),
        Op::Narrow { width, is_signed } => template::narrow(asm, width, is_signed),
        Op::Cast(shape) => cast(asm, body, shape),
        Op::Copy(bytes) => template::copy(asm, site, height, bytes),
        Op::Clear(bytes) => template::clear(asm, site, height, bytes),
        Op::Duplicate => template::duplicate(asm, site, height),
        Op::Swap => template::swap(asm, site, height),
        Op::Drop => template::drop_word(asm, site, height),
        Op::Call(arguments) => call(asm, body, height, arguments),
        Op::Primitive(which) => template::primitive(asm, site, height, which),
        Op::Return => template::leave(asm, site),
    }
}
