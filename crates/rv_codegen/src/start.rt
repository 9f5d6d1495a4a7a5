//! The start of a run.

use fsc_base::Word;
use rv_asm::{AsmNo, Assembler, inst};
use rv_isa::{Inst, registers};
use rv_runtime::Entries;
use rv_runtime::layout::{DEPTH, FIRST_BLOCK, HEADERS, RETURN, STACK};
use rv_statics::next_sixteen;
use rv_templates::{call_runtime, constant};

/// How far behind the start of its frame S0 is.
const REACH: u32 = 2048;

/// How many bytes the start takes.
const START_SIZE: u32 = 76;

/// The value of the called word, and its block, stand at the start of the first frame.
const CALLED_VALUE: Inst = inst!(sw T0, RETURN(S0));

const CALLED_BLOCK: Inst = inst!(sw T0, FIRST_BLOCK(S0));

/// No words are passed.
const NO_ARGUMENTS: Inst = inst!(addi A2, ZERO, 0);

/// The run ends with what `main` returned.
const EXIT: [Inst; 2] = [inst!(addi A7, ZERO, 93), inst!(ecall)];

/// The address of the data segment behind code that ends with the start.
pub(crate) fn data_address(asm: &Assembler) -> Result<u32, AsmNo> {
    match asm.here().checked_add(START_SIZE) {
        None => Err(AsmNo::Misfit),
        Some(end) => next_sixteen(end),
    }
}

/// Emits what every register of the runtime begins with.
fn emit_registers(asm: &mut Assembler, data: u32) -> Result<(), AsmNo> {
    asm.emit_all(&constant(registers::S0, STACK + REACH))?;
    asm.emit_all(&constant(registers::S1, HEADERS))?;
    asm.emit_all(&constant(registers::S2, data))?;
    asm.emit_all(&constant(registers::S3, DEPTH))
}

/// Emits the call of a word, and the exit behind it.
fn emit_main(asm: &mut Assembler, entries: &Entries, main: Word) -> Result<(), AsmNo> {
    asm.emit_all(&constant(registers::T0, main.value))?;
    asm.emit(CALLED_VALUE)?;
    asm.emit_all(&constant(registers::T0, main.block))?;
    asm.emit(CALLED_BLOCK)?;
    asm.emit(NO_ARGUMENTS)?;
    call_runtime(asm, entries.calls.call)?;
    asm.emit_all(&EXIT)
}

/// Emits the start of a run over the data segment at an address, which calls `main`.
pub(crate) fn emit_start(
    asm: &mut Assembler,
    entries: &Entries,
    data: u32,
    main: Word,
) -> Result<(), AsmNo> {
    emit_registers(asm, data)?;
    emit_main(asm, entries, main)
}
